//! An endpoint's control block, and the calls of its owner (RFC 9293, 3.3.1 and 3.10).

ghost use Rattle.std.specs.Prelude.{◌≡◌, ◌+◌, ◌≤◌, true, false, length, IfOk, OnOk, OnErr};
ghost use Rattle.lard_segment.specs.Segment.{said};
ghost use Rattle.lard_send.specs.Send.{is_clear};
ghost use Rattle.lard_endpoint.specs.Control.{IsControlBlock, listening, queueing, finishing, consuming, discarding_on};

pub mod arriving;
mod leaving;
pub mod moving;

use lard_arrival::peer_mss;
use lard_base::NoMemory;
use lard_base::limits::{MAX_STREAM_BYTES, RECEIVE_WINDOW};
use lard_recv::RecvHalf;
use lard_segment::Segment;
use lard_send::SendHalf;
use lard_seq::Seq;
use lard_shared::Shared;
use std::alloc::Global;
use std::marker::Model;

/// The cluster's end of a connection. There is one of each, so it cannot be cloned, and it is not let go: `end`, `kill`
/// and `freeze` spend it. Only `listen`, `adopt`, `queue` and `queue_shared` take memory.
pub struct Endpoint {
    /// The peer's bytes: what came, what is awaited, and the window.
    recv: RecvHalf,
    /// This side's symbols, and the peer's window. It begins at the same SYN of the peer as `recv`.
    send: SendHalf,
    /// An ACK is owed for a segment that came.
    owed: bool,
    /// The window that the last segment told, in bytes; before the first one the whole window.
    last_window: u16,
    /// The peer reset the connection.
    reset: bool,
}

impl Model for Endpoint {
    ghost use Rattle.std.specs.Prelude.{◌≡◌};
    ghost use Rattle.lard_recv.specs.Recv.{IsReceived};
    ghost use Rattle.lard_send.specs.Send.{IsSending};
    ghost use Rattle.lard_endpoint.specs.Control.{ControlBlock};

    ghost Value = { ControlBlock };

    ghost view = { λ e. record {
      recv = e.recv;
      send = e.send;
      owed = e.owed;
      last_window = e.last_window;
      reset = e.reset;
    } };

    // both halves count the peer's numbers from one SYN
    ghost invariant = { λ e. e.send.irs ≡ e.recv.irs };
}

impl Endpoint {
    /// An endpoint that took this SYN, and whose own SYN with the number `iss` is to be sent. It takes no data of the
    /// segment (RFC 9293, 3.10.7.2, third). The SYN has no ACK, RST or FIN. A maximum segment size that the SYN names
    /// is brought into the range 1 to 1,460. `NoMemory` where memory runs out.
    pub fn listen(alloc: Global, syn: &Segment<'_>, iss: Seq) -> Result<Endpoint, NoMemory>
        requires syn { syn.now.flags.syn ≡ true }
        requires no_ack { syn.now.flags.ack ≡ false }
        requires no_rst { syn.now.flags.rst ≡ false }
        requires no_fin { syn.now.flags.fin ≡ false }
        ensures { IfOk result (λ endpoint. endpoint ≡ listening (said syn.now) iss.0) }
    {
        let recv = RecvHalf::make(alloc, syn.seq)?;
        let send = SendHalf::make(alloc, iss, syn.seq, syn.wnd, peer_mss(syn.mss));
        Ok(Endpoint {
            recv,
            send,
            owed: false,
            last_window: RECEIVE_WINDOW as u16,
            reset: false,
        })
    }

    /// Queues bytes to be sent; not after `finish`, and at most 2^30 over one connection (RFC 9293, 3.10.2). Without
    /// memory the endpoint is as it was.
    pub fn queue(&mut self, bytes: &[u8]) -> Result<(), NoMemory>
        requires unfinished { self.old.send.finished ≡ false }
        requires fits { self.old.send.total + length bytes.now ≤ MAX_STREAM_BYTES }
        ensures ok { OnOk result (self.new ≡ queueing self.old bytes.now) }
        ensures err { OnErr result (self.new ≡ self.old) }
    {
        self.send.queue(bytes)
    }

    /// Queues bytes as `queue` does, without a copy of them. Without memory the endpoint is as it was.
    pub fn queue_shared(&mut self, bytes: Shared) -> Result<(), NoMemory>
        requires unfinished { self.old.send.finished ≡ false }
        requires fits { self.old.send.total + length bytes ≤ MAX_STREAM_BYTES }
        ensures ok { OnOk result (self.new ≡ queueing self.old bytes) }
        ensures err { OnErr result (self.new ≡ self.old) }
    {
        self.send.queue_shared(bytes)
    }

    /// Lets the FIN follow the queued bytes (RFC 9293, 3.10.4). No more are queued then.
    pub fn finish(&mut self)
        ensures { self.new ≡ finishing self.old }
    {
        self.send.finish();
    }

    /// Reads off the first `n` of the unread bytes, of which there are as many (RFC 9293, 3.10.3).
    pub fn consume(&mut self, n: usize)
        requires { n ≤ length self.old.recv.unread }
        ensures { self.new ≡ consuming self.old n }
    {
        self.recv.consume(n);
    }

    /// Drops what is unread, and from now on all that comes, which is acknowledged all the same: as behind an answer
    /// that closes the connection (RFC 9112, 9.6).
    pub fn discard_on(&mut self)
        ensures { self.new ≡ discarding_on self.old }
    {
        self.recv.discard_on();
    }

    /// The bytes that came in order and were not consumed, at most 16,384, lent without a copy.
    pub fn unread(&self) -> &[u8]
        ensures { result.now ≡ self.now.recv.unread }
    {
        self.recv.unread()
    }

    /// Whether the peer's FIN was taken (RFC 9293, 3.10.7.4, eighth).
    pub fn peer_done(&self) -> bool
        ensures { result ≡ self.now.recv.fin }
    {
        self.recv.finished()
    }

    /// Whether the peer reset the connection (RFC 9293, 3.10.7.4, second). Nothing is sent then, and `end` ends it.
    pub fn was_reset(&self) -> bool
        ensures { result ≡ self.now.reset }
    {
        self.reset
    }

    /// Whether all that was sent or queued is acknowledged, the SYN and the FIN too.
    pub fn clear(&self) -> bool
        ensures { result ≡ is_clear self.now.send }
    {
        self.send.clear()
    }

    /// The bytes queued since the connection began, at most 2^30.
    pub fn total(&self) -> u32
        ensures value { result ≡ self.now.send.total }
        ensures law { IsControlBlock self.now }
    {
        self.law();
        self.send.total()
    }

    /// Whether the FIN follows the queued bytes: true exactly after `finish`.
    pub fn finished(&self) -> bool
        ensures { result ≡ self.now.send.finished }
    {
        self.send.finished()
    }

    /// What holds of every endpoint, by the laws of its halves. It is called where a proof wants it, and does nothing.
    pub fn law(&self)
        ensures { IsControlBlock self.now }
    {
        let _received = self.recv.got();
        let _sending = self.send.total();
    }
}
