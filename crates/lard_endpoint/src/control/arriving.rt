//! What an endpoint makes of a segment, in the order of RFC 9293, 3.10.7.4.

ghost use Rattle.std.specs.Prelude.{◌≡◌};
ghost use Rattle.lard_segment.specs.Segment.{said};
ghost use Rattle.lard_endpoint.specs.Arriving.{owing, on_text, on_acked, on_ack, on_syn, on_rst, on_unacceptable, on_segment};

use crate::control::Endpoint;
use lard_arrival::{bare, is_acceptable, is_allowed};
use lard_segment::Segment;
use lard_send::Ack;

/// What a segment made of the connection.
#[derive(Clone, Copy, Debug, PartialEq, Eq)]
pub enum Arrival {
    /// Nothing is to be answered.
    Fine,
    /// The segment is to be answered by an ACK.
    AckOwed,
    /// The peer reset the connection.
    Reset,
}

impl Endpoint {
    /// Takes a segment of the peer. RFC 9293, 3.10.7.4, first: check sequence number.
    pub fn arrive(&mut self, segment: &Segment<'_>) -> Arrival
        ensures { (result, self.new) ≡ on_segment self.old (said segment.now) }
    {
        if is_acceptable(segment, self.recv.next(), self.recv.window()) {
            return self.on_rst(segment);
        }
        self.on_unacceptable(segment)
    }

    /// RFC 9293, 3.10.7.4, first, for a segment that is not acceptable: an ACK is owed, unless it is a reset. At a window
    /// of 0 a valid ACK of one is taken.
    fn on_unacceptable(&mut self, segment: &Segment<'_>) -> Arrival
        ensures { (result, self.new) ≡ on_unacceptable self.old (said segment.now) }
    {
        if is_allowed(segment, self.recv.next(), self.recv.window()) {
            self.owe();
            let _arrival = self.on_ack(&bare(segment));
            return Arrival::AckOwed;
        }
        if segment.flags.rst {
            return Arrival::Fine;
        }
        self.owe();
        Arrival::AckOwed
    }

    /// RFC 9293, 3.10.7.4, second: check the RST bit. The third, on security, has nothing to check here.
    fn on_rst(&mut self, segment: &Segment<'_>) -> Arrival
        ensures { (result, self.new) ≡ on_rst self.old (said segment.now) }
    {
        if !segment.flags.rst {
            return self.on_syn(segment);
        }
        if segment.seq.0 == self.recv.next().0 {
            self.reset = true;
            return Arrival::Reset;
        }
        self.owe();
        Arrival::AckOwed
    }

    /// RFC 9293, 3.10.7.4, fourth: check the SYN bit.
    fn on_syn(&mut self, segment: &Segment<'_>) -> Arrival
        ensures { (result, self.new) ≡ on_syn self.old (said segment.now) }
    {
        if segment.flags.syn {
            self.owe();
            return Arrival::AckOwed;
        }
        self.on_ack(segment)
    }

    /// RFC 9293, 3.10.7.4, fifth: check the ACK field. The sixth, on urgent data, is left out: no pointer is read.
    fn on_ack(&mut self, segment: &Segment<'_>) -> Arrival
        ensures { (result, self.new) ≡ on_ack self.old (said segment.now) }
    {
        if !segment.flags.ack {
            return Arrival::Fine;
        }
        match self.send.ack(segment.ack, segment.seq, segment.wnd) {
            Ack::Beyond => {
                self.owe();
                Arrival::AckOwed
            }
            Ack::New(_) | Ack::Same => self.on_acked(segment),
        }
    }

    /// Goes on once the SYN is acknowledged.
    fn on_acked(&mut self, segment: &Segment<'_>) -> Arrival
        ensures { (result, self.new) ≡ on_acked self.old (said segment.now) }
    {
        if self.send.una() == 0 {
            return Arrival::Fine;
        }
        self.on_text(segment)
    }

    /// RFC 9293, 3.10.7.4, seventh: process the segment text, and eighth: check the FIN bit.
    fn on_text(&mut self, segment: &Segment<'_>) -> Arrival
        ensures { (result, self.new) ≡ on_text self.old (said segment.now) }
    {
        if segment.payload.is_empty() && !segment.flags.fin {
            return Arrival::Fine;
        }
        let _took = self
            .recv
            .arrive(segment.seq, segment.payload, segment.flags.fin);
        self.owe();
        Arrival::AckOwed
    }

    fn owe(&mut self)
        ensures { self.new ≡ owing self.old }
    {
        self.owed = true;
    }
}
