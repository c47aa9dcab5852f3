//! What an endpoint sends: the next segment, and what its timer sends again.

ghost use Rattle.std.specs.Prelude.{◌≡◌, ◌+◌, ◌≤◌, true, ◌<◌, length, IfSome, OnSome};
ghost use Rattle.lard_segment.specs.Segment.{said};
ghost use Rattle.lard_send.specs.Send.{acknowledged_bytes, IsQueued, next_piece, resent_piece};
ghost use Rattle.lard_endpoint.specs.Control.{rcv_wnd};
ghost use Rattle.lard_endpoint.specs.Leaving.{piece_ready, piece_seq, own_mss, ack_ready, told, owes, emitted, after_emit, timed, after_timer, advanced, retried, emits_left, IsReady, filled};

use crate::control::Endpoint;
use lard_base::limits::MAX_SEGMENT_DATA;
use lard_segment::{Flags, Ready, Segment};
use lard_send::Piece;
use lard_seq::Seq;

impl Endpoint {
    /// The next segment that is to be sent, which then counts as sent (RFC 9293, 3.8). First comes the SYN; once that
    /// is acknowledged bytes and the FIN, as far as the peer's window allows; and where there is none of these an ACK
    /// that is owed. `None` where there is nothing to send, and where the endpoint was reset. Call by call this ends:
    /// `emits_left` falls.
    pub fn emit(&mut self) -> Option<Ready>
        ensures ready { result ≡ emitted self.old }
        ensures after { self.new ≡ after_emit self.old }
        ensures fits { IfSome result (λ r. IsReady self.new r) }
        ensures ends { OnSome result (emits_left self.new < emits_left self.old) }
    {
        self.law();
        if self.reset {
            return None;
        }
        if let Some(piece) = self.next_piece() {
            return Some(self.told_by(piece));
        }
        if self.owes() {
            let ready = self.ack_ready();
            self.tell();
            return Some(ready);
        }
        None
    }

    /// What a timer sends again (RFC 9293, 3.8.1, 3.8.6.1 and 3.10.8): the SYN while it is not acknowledged; then what
    /// is sent, from the first symbol that is not acknowledged; where all of it is, one symbol beyond the window, which
    /// then counts as sent. `None` where all is sent and acknowledged, and where the endpoint was reset.
    pub fn timer(&mut self) -> Option<Ready>
        ensures ready { result ≡ timed self.old }
        ensures after { self.new ≡ after_timer self.old }
        ensures fits { IfSome result (λ r. IsReady self.new r) }
    {
        if self.reset {
            return None;
        }
        let piece = self.piece_again()?;
        Some(self.told_by(piece))
    }

    /// The segment with these numbers and, as its data, these queued bytes, which are copied to `buf`. They are queued
    /// and not acknowledged, as those of a segment that `emit` or `timer` just gave, and `buf` has room for them.
    pub fn segment<'a>(&self, ready: Ready, buf: &'a mut [u8]) -> Segment<'a>
        requires unacknowledged { acknowledged_bytes self.now.send ≤ ready.at }
        requires queued { ready.at + ready.len ≤ self.now.send.total }
        requires room { ready.len ≤ length buf.old }
        ensures said { said result ≡ filled self.now ready }
        ensures size { length result.payload.now ≡ ready.len }
    {
        self.send.fill(ready.at, ready.len, buf);
        Segment {
            seq: ready.seq,
            ack: ready.ack,
            flags: ready.flags,
            wnd: ready.wnd,
            mss: ready.mss,
            payload: &buf[..ready.len as usize],
        }
    }

    /// What the sending half sends next.
    fn next_piece(&mut self) -> Option<Piece>
        ensures piece { result ≡ next_piece self.old.send }
        ensures after { self.new ≡ advanced self.old }
        ensures part { IfSome result (λ p. IsQueued self.new.send p) }
        ensures small { IfSome result (λ p. p.len ≤ MAX_SEGMENT_DATA) }
    {
        self.send.next()
    }

    /// What the sending half sends again.
    fn piece_again(&mut self) -> Option<Piece>
        ensures piece { result ≡ resent_piece self.old.send }
        ensures after { self.new ≡ retried self.old }
        ensures part { IfSome result (λ p. IsQueued self.new.send p) }
        ensures small { IfSome result (λ p. p.len ≤ MAX_SEGMENT_DATA) }
    {
        self.send.resend()
    }

    /// The segment of a piece, which tells the window and ends what is owed.
    fn told_by(&mut self, piece: Piece) -> Ready
        requires part { IsQueued self.old.send piece }
        requires small { piece.len ≤ MAX_SEGMENT_DATA }
        ensures ready { result ≡ piece_ready self.old piece }
        ensures after { self.new ≡ told self.old }
        ensures fits { IsReady self.new result }
    {
        let ready = self.piece_ready(piece);
        self.tell();
        ready
    }

    fn piece_ready(&self, piece: Piece) -> Ready
        requires { piece.at + piece.len ≤ self.now.send.total }
        ensures { result ≡ piece_ready self.now piece }
    {
        Ready {
            seq: self.piece_seq(piece),
            ack: self.recv.next(),
            flags: Flags {
                syn: piece.syn,
                fin: piece.fin,
                psh: piece.push,
                ..Flags::ACK
            },
            wnd: self.window(),
            mss: own_mss(piece.syn),
            at: piece.at,
            len: piece.len,
        }
    }

    /// The sequence number of a piece's first symbol.
    fn piece_seq(&self, piece: Piece) -> Seq
        requires { piece.at + piece.len ≤ self.now.send.total }
        ensures { result.0 ≡ piece_seq self.now piece }
    {
        if piece.syn {
            return self.send.iss();
        }
        self.law();
        self.send.iss().add(1 + piece.at)
    }

    /// An ACK without data.
    fn ack_ready(&self) -> Ready
        ensures { result ≡ ack_ready self.now }
    {
        let seq = self.send.iss().add(self.send.nxt());
        let at = self.send.total();
        Ready::control(seq, self.recv.next(), Flags::ACK, self.window(), at)
    }

    /// Notes that a segment with the window was sent.
    fn tell(&mut self)
        ensures { self.new ≡ told self.old }
    {
        self.owed = false;
        self.last_window = self.window();
    }

    /// Whether an ACK is owed, for a segment or for a window that opened.
    fn owes(&self) -> bool
        ensures { result ≡ owes self.now }
    {
        self.owed || (self.last_window == 0 && 0 < self.recv.window())
    }

    /// The receive window, at most 16,384 bytes.
    fn window(&self) -> u16
        ensures { result ≡ rcv_wnd self.now }
    {
        self.recv.window() as u16
    }
}

/// The maximum segment size that a segment names: the SYN alone does.
fn own_mss(syn: bool) -> Option<u16>
    ensures { result ≡ own_mss syn }
{
    if syn { Some(MAX_SEGMENT_DATA) } else { None }
}
