//! What each end of a connection keeps by itself, and what a step of the cluster's machine does to each connection.
//!
//! What a side sends is true of the bytes that it was given, and of true segments the other side takes exactly these bytes, in order;
//! it acknowledges no more than it took. All that is kept of a connection, its packets, and what it sees of the journal is its view: so a
//! law of one connection, rule by rule, is a law of every run. It stands above the rules. It has no code.
#![tactic(auto)]

ghost use Rattle.lard_law_view.specs.Laws.{ConnectionsGoByRules, IsViewedAlways, LawsAreCarried, StepLawsAreCarried};
ghost use Rattle.lard_law_view.specs.TruthLaws.{TruthStays, HearingStays, AcceptingStays, ListeningBegins, EmittedIsTrue, TimedIsTrue, LeavingSpeaks, ArrivingSpeaks, ArrivingHears, QueueingSpeaks, FinishingSpeaks, ReadingHears, OpeningBegins, ClientEmittedIsTrue, ClientTimedIsTrue, AbortIsTrue, ReplyIsTrue, ClientLeavingSpeaks, ClientArrivingSpeaks, ClientArrivingAccepts, WritingSpeaks, ClosingSpeaks, OtherCallsChangeNothing};

/// What was true, heard and accepted stays so as a stream goes on.
pub fn truth_stays()
    ensures said { TruthStays }
    ensures heard { HearingStays }
    ensures accepted { AcceptingStays }
{}

/// An endpoint sends the truth, and hears it.
pub fn an_endpoint_is_true()
    ensures listening { ListeningBegins }
    ensures emitted { EmittedIsTrue }
    ensures timed { TimedIsTrue }
    ensures leaving { LeavingSpeaks }
    ensures arriving { ArrivingSpeaks }
    ensures hearing { ArrivingHears }
    ensures queueing { QueueingSpeaks }
    ensures finishing { FinishingSpeaks }
    ensures reading { ReadingHears }
{}

/// A client sends the truth, and accepts it.
pub fn a_client_is_true()
    ensures opening { OpeningBegins }
    ensures emitted { ClientEmittedIsTrue }
    ensures timed { ClientTimedIsTrue }
    ensures abort { AbortIsTrue }
    ensures reply { ReplyIsTrue }
    ensures leaving { ClientLeavingSpeaks }
    ensures arriving { ClientArrivingSpeaks }
    ensures accepting { ClientArrivingAccepts }
    ensures writing { WritingSpeaks }
    ensures closing { ClosingSpeaks }
    ensures others { OtherCallsChangeNothing }
{}

/// In every state that events lead to, each connection has packets and a client of its own, and what a place holds of it until
/// that is answered was sent. The journal tells of the packets that there are.
pub fn connections_are_sound()
    ensures { IsViewedAlways }
{}

/// In a step each connection stays as it was, or makes the move of one rule: also where a step moves two of them, or a node
/// serves another one.
pub fn connections_go_by_rules()
    ensures { ConnectionsGoByRules }
{}

/// What each rule keeps of a connection holds of each one in every state that events lead to, and what the move of each rule
/// must hold, each step of a journal holds.
pub fn laws_are_carried()
    ensures laws { LawsAreCarried }
    ensures step_laws { StepLawsAreCarried }
{}
