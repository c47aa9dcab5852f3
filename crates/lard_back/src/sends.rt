//! The messages that a node sends of a connection, and those that it holds until they are answered.

ghost use Rattle.std.specs.Prelude.{◌≡◌, ◌++◌, [], ◌∷◌, ◌≤◌, length, map, IfOk, OnOk};
ghost use Rattle.std.specs.FinMap as table;
ghost use Rattle.lard_back.specs.Bounds.{AreMessages, AreWants, IsSpelledAsk, IsNodeOut};
ghost use Rattle.lard_back.specs.Hand.{ask_sent, asked_in, ended_message, fetch_message, fetches_sent, front_message, wanted};
ghost use Rattle.lard_base.specs.declared.limits.TheConstants.{MAX_MESSAGE_BYTES};
ghost use Rattle.lard_message.specs.Message.{IsCount, IsOfTable, IsPath};
ghost use Rattle.lard_rules.specs.Node.{again_sent, reset_count, message};
ghost use Rattle.lard_rules.specs.NodePlace.{node_part};
ghost use Rattle.lard_resend.specs.Pending.{AreFit, renewed, sent_of};
ghost use Rattle.lard_rules.specs.Outs.{nothing_done};

use crate::hand::At;
use lard_base::{Bytes, ConnId, NoMemory, Place, Sends, TimerKind};
use lard_endpoint::Final;
use lard_lateral::Lateral;
use lard_message::{Body, Message, encode};
use lard_resend::{Kept, Pending, PendingKey};
use lard_rules::{Asked, NodeState, Out, Want};
use lard_serving::nothing;
use std::alloc::Global;

/// The bytes of a message of this stay, whose numbers and lengths are in their ranges: at most 2^21. `NoMemory` where
/// memory runs out.
pub fn message(alloc: Global, at: &At, body: Body) -> Result<Bytes, NoMemory>
    requires { IsOfTable body }
    ensures bytes { IfOk result (λ bytes. bytes ≡ message at.now.c at.now.epoch.0 body) }
    ensures size { IfOk result (λ bytes. length bytes ≤ MAX_MESSAGE_BYTES) }
{
    let message = Message {
        c: at.c,
        epoch: at.epoch,
        body,
    };
    encode(alloc, &message)
}

/// A message goes out behind the others.
#[tactic(auto, using(crate::proofs::Messages::fit_behind))]
fn send(messages: &mut Sends, to: Place, bytes: Bytes) -> Result<(), NoMemory>
    requires fit { AreMessages messages.old }
    requires fits { length bytes ≤ MAX_MESSAGE_BYTES }
    ensures sends { OnOk result (messages.new ≡ messages.old ++ (to, bytes) ∷ []) }
    ensures fit { OnOk result (AreMessages messages.new) }
{
    messages.push((to, bytes))
}

/// A message goes to the front end, and is held until it is answered.
fn tell_front(
    kept: &mut Pending,
    alloc: Global,
    at: &At,
    kind: TimerKind,
    bytes: Bytes,
    messages: &mut Sends,
) -> Result<(), NoMemory>
    requires fit { AreMessages messages.old }
    requires fits { length bytes ≤ MAX_MESSAGE_BYTES }
    ensures kept { OnOk result (kept.new ≡ renewed kept.old at.now.c (front_message kind bytes)) }
    ensures sends { OnOk result (messages.new ≡ messages.old ++ (Place.Front, bytes) ∷ []) }
    ensures fit { OnOk result (AreMessages messages.new) }
{
    let key = PendingKey {
        c: at.c,
        kind,
        r: 0,
    };
    kept.renew(key, Place::Front, bytes.copy(alloc)?)?;
    send(messages, Place::Front, bytes)
}

/// The Ask of a turn goes out, and is held until its Tag comes. `NoMemory` where memory runs out; nothing is said of
/// what is held and sent then.
pub fn ask(
    kept: &mut Pending,
    alloc: Global,
    at: &At,
    asked: Option<Asked>,
    messages: &mut Sends,
) -> Result<(), NoMemory>
    requires fit { AreMessages messages.old }
    requires asked { IsSpelledAsk asked }
    ensures kept { OnOk result (kept.new ≡ asked_in at.now asked kept.old) }
    ensures sends { OnOk result (messages.new ≡ messages.old ++ ask_sent at.now asked) }
    ensures fit { OnOk result (AreMessages messages.new) }
{
    let Some(asked) = asked else {
        return Ok(());
    };
    let Asked {
        number,
        queue,
        size,
        paths,
    } = asked;
    let body = Body::Ask {
        number,
        queue,
        size,
        paths,
    };
    let bytes = message(alloc, at, body)?;
    tell_front(kept, alloc, at, TimerKind::Ask, bytes, messages)
}

/// The contents that a turn wants are asked for, and each Fetch is held until its content comes. `NoMemory` where
/// memory runs out; nothing is said of what is held and sent then.
pub fn want_all(
    fetches: &mut Lateral,
    alloc: Global,
    at: &At,
    wants: &[Want],
    messages: &mut Sends,
) -> Result<(), NoMemory>
    requires fit { AreMessages messages.old }
    requires paths { AreWants wants.now }
    ensures fetches { OnOk result (fetches.new ≡ wanted at.now wants.now fetches.old) }
    ensures sends { OnOk result (messages.new ≡ messages.old ++ fetches_sent at.now wants.now) }
    ensures fit { OnOk result (AreMessages messages.new) }
{
    for want in wants {
        want_one(fetches, alloc, at, want, messages)?;
    }
    Ok(())
}

/// The content of a request is asked for.
fn want_one(
    fetches: &mut Lateral,
    alloc: Global,
    at: &At,
    want: &Want,
    messages: &mut Sends,
) -> Result<(), NoMemory>
    requires fit { AreMessages messages.old }
    requires path { IsPath want.now.path }
    ensures fetches { OnOk result (fetches.new ≡ renewed fetches.old at.now.c (fetch_message at.now want.now)) }
    ensures sends { OnOk result (messages.new ≡ messages.old ++ sent_of (fetch_message at.now want.now) ∷ []) }
    ensures fit { OnOk result (AreMessages messages.new) }
{
    let bytes = fetches.want(alloc, at.c, at.epoch, want.r, want.node, &want.path)?;
    send(messages, Place::Node(want.node), bytes)
}

/// The stay is over: a message tells the front end so, and nothing of the connection is awaited any longer but the answer
/// to it. `NoMemory` where memory runs out; nothing is said of what is held and sent then.
pub fn tell_last(
    kept: &mut Pending,
    alloc: Global,
    at: &At,
    kind: TimerKind,
    bytes: Bytes,
    messages: &mut Sends,
) -> Result<(), NoMemory>
    requires fit { AreMessages messages.old }
    requires fits { length bytes ≤ MAX_MESSAGE_BYTES }
    ensures kept { OnOk result (kept.new ≡ renewed (table.remove kept.old at.now.c) at.now.c (front_message kind bytes)) }
    ensures sends { OnOk result (messages.new ≡ messages.old ++ (Place.Front, bytes) ∷ []) }
    ensures fit { OnOk result (AreMessages messages.new) }
{
    kept.forget(at.c);
    tell_front(kept, alloc, at, kind, bytes, messages)
}

/// The stay ended, with these numbers. `NoMemory` where memory runs out; nothing is said of what is held and sent then.
pub fn end(
    kept: &mut Pending,
    alloc: Global,
    at: &At,
    last: Final,
    over: Option<u32>,
    messages: &mut Sends,
) -> Result<(), NoMemory>
    requires fit { AreMessages messages.old }
    requires count { IsCount last.reason (reset_count over) }
    ensures kept { OnOk result (kept.new ≡ renewed (table.remove kept.old at.now.c) at.now.c (ended_message at.now last over)) }
    ensures sends { OnOk result (messages.new ≡ messages.old ++ sent_of (ended_message at.now last over) ∷ []) }
    ensures fit { OnOk result (AreMessages messages.new) }
{
    let body = Body::Ended {
        reason: last.reason,
        snd: last.snd.0,
        rcv: last.rcv.0,
        count: over.unwrap_or(0),
    };
    let bytes = message(alloc, at, body)?;
    tell_last(kept, alloc, at, TimerKind::Ended, bytes, messages)
}

// ---- what goes out beside a turn

/// The answer to an Offer that was taken. `NoMemory` where memory runs out.
pub fn taken(alloc: Global, at: &At) -> Result<Sends, NoMemory>
    ensures sends { IfOk result (λ sends. sends ≡ (Place.Front, message at.now.c at.now.epoch.0 Body.Taken) ∷ []) }
    ensures fit { IfOk result AreMessages }
{
    answer(alloc, at, Body::Taken)
}

/// The answer to an Offer that is refused. `NoMemory` where memory runs out.
pub fn refused(alloc: Global, at: &At) -> Result<Sends, NoMemory>
    ensures sends { IfOk result (λ sends. sends ≡ (Place.Front, message at.now.c at.now.epoch.0 Body.Refused) ∷ []) }
    ensures fit { IfOk result AreMessages }
{
    answer(alloc, at, Body::Refused)
}

/// A message goes to the front end, and is not held.
fn answer(alloc: Global, at: &At, body: Body) -> Result<Sends, NoMemory>
    requires { IsOfTable body }
    ensures sends { IfOk result (λ sends. sends ≡ (Place.Front, message at.now.c at.now.epoch.0 body) ∷ []) }
    ensures fit { IfOk result AreMessages }
{
    let mut messages = Sends::new(alloc);
    let bytes = message(alloc, at, body)?;
    send(&mut messages, Place::Front, bytes)?;
    Ok(messages)
}

/// All that awaits an answer, once more: the Ask, the Ended or the Give of a connection, and then its Fetches, by number.
/// `NoMemory` where memory runs out.
pub fn again(state: &NodeState, alloc: Global, c: ConnId) -> Result<Sends, NoMemory>
    ensures sends { IfOk result (λ sends. sends ≡ again_sent (node_part state.now c)) }
    ensures fit { IfOk result AreMessages }
{
    let mut messages = Sends::new(alloc);
    send_again(alloc, state.kept.of(c), &mut messages)?;
    send_again(alloc, state.fetches.of(c), &mut messages)?;
    Ok(messages)
}

/// What is held goes out once more, behind the others.
fn send_again(alloc: Global, held: &[Kept], messages: &mut Sends) -> Result<(), NoMemory>
    requires fit { AreMessages messages.old }
    requires short { AreFit held.now }
    ensures sends { OnOk result (messages.new ≡ messages.old ++ map sent_of held.now) }
    ensures fit { OnOk result (AreMessages messages.new) }
{
    for kept in held {
        send(messages, kept.to, kept.bytes.copy(alloc)?)?;
    }
    Ok(())
}

/// Messages go out, and nothing else is done.
pub fn say(alloc: Global, messages: Sends) -> Out
    requires { AreMessages messages }
    ensures out { result ≡ record nothing_done { messages = messages } }
    ensures fits { IsNodeOut result }
{
    let mut out = nothing(alloc);
    out.messages = messages;
    out
}
