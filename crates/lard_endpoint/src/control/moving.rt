//! How an endpoint is frozen, goes on at another place, and ends.

ghost use Rattle.std.specs.Prelude.{◌≡◌, ◌-◌, ◌≤◌, true, false, length, IfOk, IfErr};
ghost use Rattle.lard_base.specs.Parts.{IsValidParts};
ghost use Rattle.lard_base.specs.declared.place.Reason.TheVariants.{Limit};
ghost use Rattle.lard_endpoint.specs.Control.{rcv_nxt, snd_nxt};
ghost use Rattle.lard_endpoint.specs.Moving.{may_freeze, parts_of, adopted, is_closed, may_end, final_of, end_reason};

use crate::control::Endpoint;
use lard_base::limits::RECEIVE_WINDOW;
use lard_base::{Bytes, EndpointParts, NoMemory, Reason};
use lard_recv::RecvHalf;
use lard_send::SendHalf;
use lard_seq::Seq;
use std::alloc::Global;
use std::marker::Model;

/// What is left of a connection that ended.
#[derive(Clone, Copy, Debug, PartialEq, Eq)]
pub struct Final {
    /// Why it ended.
    pub reason: Reason,
    /// The next sequence number of the cluster, SND.NXT.
    pub snd: Seq,
    /// The next sequence number of the client, RCV.NXT.
    pub rcv: Seq,
}

/// An endpoint that stands still, to go on at another place. Like an endpoint it cannot be cloned and is not let go:
/// `thaw` and `release` spend it.
pub struct Frozen {
    endpoint: Endpoint,
}

impl Model for Frozen {
    ghost use Rattle.std.specs.Prelude.{◌≡◌, true};
    ghost use Rattle.lard_endpoint.specs.Control.{ControlBlock};
    ghost use Rattle.lard_endpoint.specs.Moving.{may_freeze};

    ghost Value = { ControlBlock };

    ghost view = { λ f. f.endpoint };

    ghost invariant = { λ f. may_freeze f.endpoint ≡ true };
}

impl Endpoint {
    /// An endpoint that goes on from parts that are valid. It owes an ACK. `NoMemory` where memory runs out.
    pub fn adopt(alloc: Global, parts: &EndpointParts) -> Result<Endpoint, NoMemory>
        requires { IsValidParts parts.now }
        ensures { IfOk result (λ endpoint. endpoint ≡ adopted parts.now) }
    {
        let irs = Seq(parts.irs);
        let recv = RecvHalf::restore(alloc, irs, parts.got, parts.fin, parts.unread.as_slice())?;
        Ok(Endpoint {
            recv,
            send: SendHalf::restore(alloc, parts),
            owed: true,
            last_window: RECEIVE_WINDOW as u16,
            reset: false,
        })
    }

    /// Whether it may be frozen: all that was queued is acknowledged, it is not finished, does not discard, and was not
    /// reset.
    pub fn can_freeze(&self) -> bool
        ensures { result ≡ may_freeze self.now }
    {
        (self.send.clear() && !self.send.finished()) && (!self.recv.discarding() && !self.reset)
    }

    /// Stands still from now on. It may be frozen, as `can_freeze` tells.
    pub fn freeze(self) -> Frozen
        requires { may_freeze self ≡ true }
        ensures { result ≡ self }
    {
        Frozen { endpoint: self }
    }

    /// Ends the endpoint where our FIN is acknowledged and theirs was taken, or the peer reset it (RFC 9293, 3.6); else
    /// hands it back as it was, in the error.
    pub fn end(self) -> Result<Final, Endpoint>
        ensures ended { IfOk result (λ last. (may_end self ≡ true) × (last ≡ final_of self (end_reason self))) }
        ensures same { IfErr result (λ endpoint. (may_end self ≡ false) × (endpoint ≡ self)) }
    {
        if self.reset {
            return Ok(self.spend(Reason::Peer));
        }
        if self.is_closed() {
            return Ok(self.spend(Reason::Closed));
        }
        Err(self)
    }

    /// Ends the endpoint whatever it still has to do, since it passed the stream limit.
    pub fn kill(self) -> Final
        ensures { result ≡ final_of self Limit }
    {
        self.spend(Reason::Limit)
    }

    /// Whether both sides are closed.
    fn is_closed(&self) -> bool
        ensures { result ≡ is_closed self.now }
    {
        (self.send.finished() && self.send.clear()) && self.recv.finished()
    }

    /// Takes the endpoint apart, which ends it, and keeps its last numbers.
    fn spend(self, reason: Reason) -> Final
        ensures { result ≡ final_of self reason }
    {
        let snd = self.send.iss().add(self.send.nxt());
        let rcv = self.recv.next();
        let Endpoint {
            recv: _,
            send: _,
            owed: _,
            last_window: _,
            reset: _,
        } = self;
        Final { reason, snd, rcv }
    }
}

impl Frozen {
    /// What another place needs to go on, with the number of responses that were queued before: at most the bytes that
    /// came less the unread ones. `NoMemory` where memory runs out.
    pub fn parts(&self, alloc: Global, served: u32) -> Result<EndpointParts, NoMemory>
        requires { served ≤ self.now.recv.got - length self.now.recv.unread }
        ensures parts { IfOk result (λ parts. parts ≡ parts_of self.now served) }
        ensures valid { IfOk result (λ parts. IsValidParts parts) }
    {
        let endpoint = &self.endpoint;
        endpoint.law();
        let unread = Bytes::from_slice(alloc, endpoint.recv.unread())?;
        Ok(EndpointParts {
            irs: endpoint.recv.irs().0,
            iss: endpoint.send.iss().0,
            got: endpoint.recv.got(),
            fin: endpoint.recv.finished(),
            una: endpoint.send.una(),
            wnd: endpoint.send.window(),
            wl1: endpoint.send.wl1().0,
            wl2: endpoint.send.wl2().0,
            mss: endpoint.send.mss(),
            served,
            unread,
        })
    }

    /// The endpoint as it was.
    pub fn thaw(self) -> Endpoint
        ensures value { result ≡ self }
        ensures may { may_freeze result ≡ true }
    {
        let Frozen { endpoint } = self;
        endpoint
    }

    /// Spends it, where it goes on at another place.
    pub fn release(self) {
        let Frozen { endpoint } = self;
        let _last = endpoint.spend(Reason::Closed);
    }
}
