//! What a client sends.

ghost use Rattle.std.specs.Prelude.{◌≡◌, ◌≤◌, ◌<◌, length, IfSome, IfNone, is_some};
ghost use Rattle.lard_client.specs.Control.{is_client_armed, is_established};
ghost use Rattle.lard_client.specs.Leaving.{IsHeld, IsWritable, syn_ready, client_piece_ready, client_ack_ready, reset_ready, client_refusal, client_told, client_owes, client_owed_ready, data_ready, client_after_owed, client_emitted, client_after_emit, unsaid, client_timed, client_after_timer, client_filled};
ghost use Rattle.lard_segment.specs.Segment.{said};

use super::Client;
use lard_segment::{Flags, Ready, Segment};
use lard_send::Piece;
use lard_seq::Seq;

impl Client {
    /// The next segment that is to be sent, which then counts as sent (RFC 9293, 3.8): first the SYN; once that is
    /// acknowledged bytes and the FIN, at most a segment and as far as the cluster's window allows; else an ACK where
    /// one is owed. `None` where there is nothing to send, as where the client was aborted or reset; nothing changes
    /// then.
    #[tactic(auto, using(crate::proofs::Writable::writable_piece, crate::proofs::Emitting::told_falls))]
    pub fn emit(&mut self) -> Option<Ready>
        ensures ready { result ≡ client_emitted self.old }
        ensures after { self.new ≡ client_after_emit self.old }
        ensures none { IfNone result (self.new ≡ self.old) }
        ensures falls { IfSome result (λ _. unsaid self.new < unsaid self.old) }
        ensures held { IfSome result (λ ready. IsHeld self.new ready) }
        ensures writable { IfSome result (λ ready. IsWritable ready) }
    {
        if !self.is_open() {
            return None;
        }
        self.law();
        match self.send.next() {
            Some(piece) => return Some(self.tell(piece)),
            None => return self.tell_owed(),
        }
    }

    /// What the timer sends again (RFC 9293, 3.8.1, 3.8.6.1 and 3.10.8): the SYN while it is not acknowledged; else the
    /// sent symbols from the first that is not acknowledged, at most a segment; where all are, one symbol beyond the
    /// window, which then counts as sent. `None` exactly where the timer does not run; nothing changes then.
    #[tactic(auto, using(crate::proofs::Writable::writable_piece, lard_send::proofs::Sent::resent_some))]
    pub fn timer(&mut self) -> Option<Ready>
        ensures ready { result ≡ client_timed self.old }
        ensures after { self.new ≡ client_after_timer self.old }
        ensures none { IfNone result (self.new ≡ self.old) }
        ensures armed { is_some result ≡ is_client_armed self.old }
        ensures held { IfSome result (λ ready. IsHeld self.new ready) }
        ensures writable { IfSome result (λ ready. IsWritable ready) }
    {
        if !self.is_open() {
            return None;
        }
        self.law();
        match self.send.resend() {
            Some(piece) => return Some(self.tell(piece)),
            None => return None,
        }
    }

    /// The segment that `ready` names, with its data, which is copied to the front of `buf`. Its data is queued and not
    /// acknowledged, as that of a segment which the client gave last, and `buf` has room for it.
    pub fn segment<'a>(&self, ready: Ready, buf: &'a mut [u8]) -> Segment<'a>
        requires held { IsHeld self.now ready }
        requires room { ready.len ≤ length buf.old }
        ensures { said result ≡ client_filled self.now ready }
    {
        self.send.fill(ready.at, ready.len, buf);
        Segment {
            seq: ready.seq,
            ack: ready.ack,
            flags: ready.flags,
            wnd: ready.wnd,
            mss: ready.mss,
            payload: &buf[..ready.len as usize],
        }
    }

    /// Tells a piece and the window.
    fn tell(&mut self, piece: Piece) -> Ready
        ensures ready { result ≡ client_piece_ready self.old piece }
        ensures after { self.new ≡ client_told self.old }
    {
        let ready = if piece.syn {
            self.syn()
        } else {
            self.data(piece)
        };
        self.end_owed();
        ready
    }

    /// Tells an ACK and the window, where an ACK is owed.
    #[tactic(auto, using(crate::proofs::Emitting::owed_falls))]
    fn tell_owed(&mut self) -> Option<Ready>
        ensures ready { result ≡ client_owed_ready self.old }
        ensures after { self.new ≡ client_after_owed self.old }
        ensures none { IfNone result (self.new ≡ self.old) }
        ensures falls { IfSome result (λ _. unsaid self.new < unsaid self.old) }
    {
        if !self.owes() {
            return None;
        }
        let ready = self.ack();
        self.end_owed();
        Some(ready)
    }

    /// A segment was told, with the window.
    fn end_owed(&mut self)
        ensures { self.new ≡ client_told self.old }
    {
        self.owed = false;
        self.last_window = self.rcv_wnd();
    }

    /// Whether it owes an ACK, also because its window opened since it was told as 0.
    fn owes(&self) -> bool
        ensures { result ≡ client_owes self.now }
    {
        self.is_established() && (self.owed || (self.last_window == 0 && 0 < self.rcv_wnd()))
    }

    /// The SYN.
    fn syn(&self) -> Ready
        ensures { result ≡ syn_ready self.now }
    {
        Ready {
            seq: self.send.iss(),
            ack: Seq(0),
            flags: Flags {
                syn: true,
                ..Flags::NONE
            },
            wnd: self.rcv_wnd(),
            mss: Some(self.mss),
            at: 0,
            len: 0,
        }
    }

    /// Bytes, and perhaps the FIN.
    fn data(&self, piece: Piece) -> Ready
        ensures { result ≡ data_ready self.now piece }
    {
        Ready {
            seq: self.send.iss().add(1).add(piece.at),
            ack: self.rcv_nxt(),
            flags: Flags {
                fin: piece.fin,
                psh: piece.push,
                ..Flags::ACK
            },
            wnd: self.rcv_wnd(),
            mss: None,
            at: piece.at,
            len: piece.len,
        }
    }

    /// A plain ACK.
    fn ack(&self) -> Ready
        ensures { result ≡ client_ack_ready self.now }
    {
        let at = self.send.total();
        Ready::control(
            self.snd_nxt(),
            self.rcv_nxt(),
            Flags::ACK,
            self.rcv_wnd(),
            at,
        )
    }

    /// The RST of a client that aborts.
    pub(super) fn reset(&self) -> Ready
        ensures { result ≡ reset_ready self.now }
    {
        let at = self.send.total();
        Ready::control(self.snd_nxt(), self.rcv_nxt(), Flags::RST_ACK, 0, at)
    }

    /// The RST that answers an acknowledgement number.
    pub(super) fn refusal(&self, ack: Seq) -> Ready
        ensures { result ≡ client_refusal self.now ack.0 }
    {
        Ready::control(ack, Seq(0), Flags::RST, 0, self.send.total())
    }
}
