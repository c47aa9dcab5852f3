//! The sending half: what is queued leaves in pieces, and what is acknowledged is dropped.

ghost use Rattle.std.specs.Prelude.{◌≡◌, ◌+◌, ◌-◌, ◌≤◌, false, not, ◌++◌, length, take, drop, OnOk, OnErr, IfSome};
ghost use Rattle.lard_base.specs.Parts.{IsValidParts};
ghost use Rattle.lard_seq.specs.Seq.{seq_offset};
ghost use Rattle.lard_send.specs.Send.{IsSending, IsQueued, acknowledged_bytes, symbols, send_begun, resumed, introduced, queued_too, send_closed, is_clear, moved_up, is_newer, windowed, after_ack, ack_answer, byte_piece, peer_room, send_left, unsent_bytes, may_send, next_len, next_fin, next_piece, after_next, again_len, again_fin, resent_piece, after_resend};

use crate::piece::Piece;
use crate::rest::Rest;
use lard_base::limits::{MAX_SEGMENT_DATA, MAX_STREAM_BYTES};
use lard_base::{EndpointParts, NoMemory};
use lard_seq::Seq;
use lard_shared::Shared;
use std::alloc::Global;
use std::marker::Model;

/// What a segment's acknowledgement number says.
#[derive(Clone, Copy, Debug, PartialEq, Eq)]
pub enum Ack {
    /// So many symbols are acknowledged now that were not before.
    New(u32),
    /// None are.
    Same,
    /// It acknowledges what was not sent.
    Beyond,
}

/// The symbols of this side, as far as they are not acknowledged. Only `queue` and `queue_shared` take memory.
#[derive(Drop)]
pub struct SendHalf {
    /// The sequence number of the SYN, ISS.
    iss: Seq,
    /// The sequence number of the peer's SYN, IRS, from which `wl1` is counted.
    irs: Seq,
    /// How many symbols are acknowledged: SND.UNA as an offset, at most `nxt`.
    una: u32,
    /// How many symbols are sent: SND.NXT as an offset, at most all that there are.
    nxt: u32,
    /// The queued bytes that are not acknowledged.
    rest: Rest,
    /// How many bytes were queued since the connection began, at most 2^30.
    total: u32,
    /// The FIN follows the queued bytes, and no more are queued.
    finished: bool,
    /// The peer's window, SND.WND, in bytes.
    wnd: u16,
    /// The sequence number of the segment that brought the window, SND.WL1.
    wl1: Seq,
    /// The acknowledgement number of that segment, SND.WL2.
    wl2: Seq,
    /// The most bytes of a segment that the peer takes, 1 to 1,460.
    mss: u16,
}

impl Model for SendHalf {
    ghost use Rattle.lard_send.specs.Send.{Sending, IsSending};

    ghost Value = { Sending };

    ghost view = { λ s. record {
      iss = s.iss.0;
      irs = s.irs.0;
      una = s.una;
      nxt = s.nxt;
      rest = s.rest;
      total = s.total;
      finished = s.finished;
      wnd = s.wnd;
      wl1 = s.wl1.0;
      wl2 = s.wl2.0;
      mss = s.mss;
    } };

    ghost invariant = { λ s. IsSending (record {
      iss = s.iss.0;
      irs = s.irs.0;
      una = s.una;
      nxt = s.nxt;
      rest = s.rest;
      total = s.total;
      finished = s.finished;
      wnd = s.wnd;
      wl1 = s.wl1.0;
      wl2 = s.wl2.0;
      mss = s.mss;
    }) };
}

impl SendHalf {
    /// A half whose SYN, with the number `iss`, is not sent. The peer's SYN has the number `irs` and brought the
    /// window, in bytes (RFC 9293, 3.10.7.2). `mss` is 1 to 1,460 bytes. It takes no memory yet.
    pub fn make(alloc: Global, iss: Seq, irs: Seq, wnd: u16, mss: u16) -> SendHalf
        requires some_mss { 1 ≤ mss }
        requires small_mss { mss ≤ MAX_SEGMENT_DATA }
        ensures { result ≡ send_begun iss.0 irs.0 wnd mss }
    {
        SendHalf {
            iss,
            irs,
            una: 0,
            nxt: 0,
            rest: Rest::new(alloc),
            total: 0,
            finished: false,
            wnd,
            wl1: irs,
            wl2: iss,
            mss,
        }
    }

    /// Sets the peer's first number, and its maximum segment size, 1 to 1,460 bytes, as a client learns them of the
    /// segment that acknowledges its SYN (RFC 9293, 3.10.7.3). Nothing is acknowledged yet.
    pub fn peer(&mut self, irs: Seq, mss: u16)
        requires syn { self.old.una ≡ 0 }
        requires some_mss { 1 ≤ mss }
        requires small_mss { mss ≤ MAX_SEGMENT_DATA }
        ensures { self.new ≡ introduced self.old irs.0 mss }
    {
        self.irs = irs;
        self.mss = mss;
    }

    /// A half that goes on from parts that are valid, of which all that was queued is acknowledged. It takes no memory yet.
    pub fn restore(alloc: Global, parts: &EndpointParts) -> SendHalf
        requires { IsValidParts parts.now }
        ensures { result ≡ resumed parts.now }
    {
        SendHalf {
            iss: Seq(parts.iss),
            irs: Seq(parts.irs),
            una: parts.una,
            nxt: parts.una,
            rest: Rest::new(alloc),
            total: parts.una - 1,
            finished: false,
            wnd: parts.wnd,
            wl1: Seq(parts.wl1),
            wl2: Seq(parts.wl2),
            mss: parts.mss,
        }
    }

    /// Queues bytes behind those that were queued; not after `finish`, and at most 2^30 over one connection
    /// (RFC 9293, 3.10.2). Without memory the half is as it was.
    pub fn queue(&mut self, bytes: &[u8]) -> Result<(), NoMemory>
        requires unfinished { self.old.finished ≡ false }
        requires fits { self.old.total + length bytes.now ≤ MAX_STREAM_BYTES }
        ensures ok { OnOk result (self.new ≡ queued_too self.old bytes.now) }
        ensures err { OnErr result (self.new ≡ self.old) }
    {
        self.rest.push(bytes)?;
        self.total += bytes.len() as u32;
        Ok(())
    }

    /// Queues bytes as `queue` does, without a copy of them. Without memory the half is as it was.
    pub fn queue_shared(&mut self, bytes: Shared) -> Result<(), NoMemory>
        requires unfinished { self.old.finished ≡ false }
        requires fits { self.old.total + length bytes ≤ MAX_STREAM_BYTES }
        ensures ok { OnOk result (self.new ≡ queued_too self.old bytes) }
        ensures err { OnErr result (self.new ≡ self.old) }
    {
        let count = bytes.len() as u32;
        self.rest.push_shared(bytes)?;
        self.total += count;
        Ok(())
    }

    /// Takes what a segment acknowledges, and its window where the segment is newer than the one that brought the last
    /// (RFC 9293, 3.10.7.4, fifth).
    pub fn ack(&mut self, ack: Seq, seq: Seq, wnd: u16) -> Ack
        ensures answer { result ≡ ack_answer self.old (seq_offset ack.0 self.old.iss) }
        ensures after { self.new ≡ after_ack self.old ack.0 seq.0 wnd }
    {
        let offset = ack.offset_from(self.iss);
        let una = self.una;
        if offset > self.nxt {
            return Ack::Beyond;
        }
        if una == 0 && offset == 0 {
            return Ack::Same;
        }
        self.move_up(offset);
        self.take_window(una == 0, seq, ack, wnd);
        if offset > una {
            return Ack::New(offset - una);
        }
        Ack::Same
    }

    /// Counts so many symbols as acknowledged, where these are more than before.
    fn move_up(&mut self, offset: u32)
        requires { offset ≤ self.old.nxt }
        ensures { self.new ≡ moved_up self.old offset }
    {
        if offset > self.una {
            let bytes = (offset - 1) - self.una.saturating_sub(1);
            self.rest.consume(bytes as usize);
            self.una = offset;
        }
    }

    /// Takes a segment's window, where the segment acknowledged the SYN or is newer.
    fn take_window(&mut self, opened: bool, seq: Seq, ack: Seq, wnd: u16)
        ensures { self.new ≡ windowed self.old opened seq.0 ack.0 wnd }
    {
        if opened || self.is_newer(seq, ack) {
            self.wnd = wnd;
            self.wl1 = seq;
            self.wl2 = ack;
        }
    }

    /// Whether a segment is newer than the one that brought the window.
    fn is_newer(&self, seq: Seq, ack: Seq) -> bool
        ensures { result ≡ is_newer self.now seq.0 ack.0 }
    {
        self.wl1.offset_from(self.irs) < seq.offset_from(self.irs)
            || (self.wl1.0 == seq.0 && self.wl2.offset_from(self.iss) <= ack.offset_from(self.iss))
    }

    /// The symbols that are to be sent next, which then count as sent: first the SYN, and once that is acknowledged
    /// bytes and the FIN, at most a segment and as far as the peer's window allows (RFC 9293, 3.8.6). `None` where
    /// there are none, or the window has no room for one.
    pub fn next(&mut self) -> Option<Piece>
        ensures piece { result ≡ next_piece self.old }
        ensures after { self.new ≡ after_next self.old }
        ensures part { IfSome result (λ p. IsQueued self.new p) }
        ensures small { IfSome result (λ p. p.len ≤ MAX_SEGMENT_DATA) }
    {
        if self.nxt == 0 {
            self.nxt = 1;
            return Some(Piece::syn());
        }
        if !self.may_send() {
            return None;
        }
        let len = self.next_len();
        let fin = self.next_fin(len);
        let piece = self.piece(self.nxt - 1, len, fin);
        self.nxt += len + fin as u32;
        Some(piece)
    }

    /// Whether there are symbols that may be sent.
    fn may_send(&self) -> bool
        ensures { result ≡ may_send self.now }
    {
        self.una != 0 && (self.nxt < self.symbols() && 0 < self.left())
    }

    /// How many bytes are sent next.
    fn next_len(&self) -> u32
        ensures { result ≡ next_len self.now }
    {
        self.unsent().min(self.mss as u32).min(self.left())
    }

    /// Whether the FIN is sent behind so many bytes.
    fn next_fin(&self, len: u32) -> bool
        requires { len ≡ next_len self.now }
        ensures { result ≡ next_fin self.now }
    {
        self.finished && (len == self.unsent() && len < self.left())
    }

    /// What a timer sends again: the SYN while it is not acknowledged, then the sent symbols from the first that is not
    /// acknowledged, at most a segment; where all are, one symbol beyond the window, which then counts as sent
    /// (RFC 9293, 3.8.1 and 3.8.6.1). `None` where all is sent and acknowledged.
    pub fn resend(&mut self) -> Option<Piece>
        ensures piece { result ≡ resent_piece self.old }
        ensures after { self.new ≡ after_resend self.old }
        ensures part { IfSome result (λ p. IsQueued self.new p) }
        ensures small { IfSome result (λ p. p.len ≤ MAX_SEGMENT_DATA) }
    {
        if self.una == 0 {
            self.nxt = self.nxt.max(1);
            return Some(Piece::syn());
        }
        if self.una < self.nxt {
            let len = self.again_len();
            let fin = self.again_fin(len);
            return Some(self.piece(self.una - 1, len, fin));
        }
        if self.nxt < self.symbols() {
            let unsent = self.unsent();
            let piece = self.piece(self.nxt - 1, unsent.min(1), unsent == 0);
            self.nxt += 1;
            return Some(piece);
        }
        None
    }

    /// How many of the sent bytes are sent again.
    fn again_len(&self) -> u32
        requires { 1 ≤ self.now.una }
        ensures { result ≡ again_len self.now }
    {
        let sent = (self.nxt - 1).min(self.total);
        sent.saturating_sub(self.una - 1).min(self.mss as u32)
    }

    /// Whether the FIN is sent again behind so many bytes.
    fn again_fin(&self, len: u32) -> bool
        requires some { 1 ≤ self.now.una }
        requires len { len ≡ again_len self.now }
        ensures { result ≡ again_fin self.now }
    {
        self.finished && (self.nxt == self.symbols() && self.una - 1 + len == self.total)
    }

    /// Bytes, and perhaps the FIN.
    fn piece(&self, at: u32, len: u32, fin: bool) -> Piece
        requires { at + len ≤ self.now.total }
        ensures { result ≡ byte_piece self.now at len fin }
    {
        Piece {
            at,
            len,
            syn: false,
            fin,
            push: 0 < len && at + len == self.total,
        }
    }

    /// How many symbols there are.
    fn symbols(&self) -> u32
        ensures { result ≡ symbols self.now }
    {
        1 + self.total + self.finished as u32
    }

    /// How many symbols the peer has room for that may be on their way, SND.UNA =< symbol < SND.UNA + room.
    #[tactic(auto, unfolding(crate::specs::Send::peer_room))]
    fn peer_room(&self) -> u32
        ensures value { result ≡ peer_room self.now }
        ensures bound { result ≤ 65535 }
    {
        self.wnd as u32
    }

    /// How many symbols may be sent before more are acknowledged.
    fn left(&self) -> u32
        ensures { result ≡ send_left self.now }
    {
        (self.una + self.peer_room()).saturating_sub(self.nxt)
    }

    /// How many bytes are not sent.
    fn unsent(&self) -> u32
        ensures { result ≡ unsent_bytes self.now }
    {
        self.total.saturating_sub(self.nxt.saturating_sub(1))
    }

    /// Writes the `len` queued bytes before which `at` stand to the front of `buf`. They are queued and not
    /// acknowledged, as those of each piece when it is answered, and `buf` has `len` bytes at least.
    pub fn fill(&self, at: u32, len: u32, buf: &mut [u8])
        requires unacknowledged { acknowledged_bytes self.now ≤ at }
        requires queued { at + len ≤ self.now.total }
        requires room { len ≤ length buf.old }
        ensures { buf.new ≡ take len (drop (at - acknowledged_bytes self.now) self.now.rest) ++ drop len buf.old }
    {
        self.rest
            .gather(at - self.acknowledged_bytes(), &mut buf[..len as usize]);
    }

    /// How many queued bytes are acknowledged.
    fn acknowledged_bytes(&self) -> u32
        ensures { result ≡ acknowledged_bytes self.now }
    {
        self.una.saturating_sub(1).min(self.total)
    }

    /// Lets the FIN follow the queued bytes (RFC 9293, 3.10.4). No more are queued then.
    pub fn finish(&mut self)
        ensures { self.new ≡ send_closed self.old }
    {
        self.finished = true;
    }

    /// Whether all symbols are acknowledged.
    pub fn clear(&self) -> bool
        ensures { result ≡ is_clear self.now }
    {
        self.una == self.symbols()
    }

    /// Whether a timer runs: some symbol is not acknowledged (RFC 9293, 3.8.1).
    pub fn armed(&self) -> bool
        ensures { result ≡ not (is_clear self.now) }
    {
        !self.clear()
    }

    /// The sequence number of the SYN, ISS (RFC 9293, 3.3.1).
    pub fn iss(&self) -> Seq
        ensures { result.0 ≡ self.now.iss }
    {
        self.iss
    }

    /// The sequence number of the peer's SYN, IRS, as `make`, `peer` or `restore` had it (RFC 9293, 3.3.1).
    pub fn irs(&self) -> Seq
        ensures { result.0 ≡ self.now.irs }
    {
        self.irs
    }

    /// The bytes queued since the connection began, at most 2^30.
    pub fn total(&self) -> u32
        ensures value { result ≡ self.now.total }
        ensures law { IsSending self.now }
    {
        self.total
    }

    /// UNA, how many symbols are acknowledged: the offset of SND.UNA from ISS (RFC 9293, 3.3.1).
    pub fn una(&self) -> u32
        ensures { result ≡ self.now.una }
    {
        self.una
    }

    /// NXT, how many symbols are sent: the offset of SND.NXT from ISS (RFC 9293, 3.3.1).
    pub fn nxt(&self) -> u32
        ensures { result ≡ self.now.nxt }
    {
        self.nxt
    }

    /// The peer's window, in bytes: SND.WND (RFC 9293, 3.3.1).
    pub fn window(&self) -> u16
        ensures { result ≡ self.now.wnd }
    {
        self.wnd
    }

    /// The sequence number of the segment that brought the window, SND.WL1 (RFC 9293, 3.3.1).
    pub fn wl1(&self) -> Seq
        ensures { result.0 ≡ self.now.wl1 }
    {
        self.wl1
    }

    /// The acknowledgement number of the segment that brought the window, SND.WL2 (RFC 9293, 3.3.1).
    pub fn wl2(&self) -> Seq
        ensures { result.0 ≡ self.now.wl2 }
    {
        self.wl2
    }

    /// The most bytes of a segment, 1 to 1,460 (RFC 9293, 3.7.1).
    pub fn mss(&self) -> u16
        ensures { result ≡ self.now.mss }
    {
        self.mss
    }

    /// Whether the FIN follows the queued bytes: true exactly after `finish` (RFC 9293, 3.10.4).
    pub fn finished(&self) -> bool
        ensures { result ≡ self.now.finished }
    {
        self.finished
    }
}
