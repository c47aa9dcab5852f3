//! What a client makes of a segment, step by step.

ghost use Rattle.std.specs.Prelude.{◌≡◌, ◌+◌, ◌≤◌, length, IfSome};
ghost use Rattle.lard_client.specs.Arriving.{client_begins_after, known, client_room, fresh_len, client_ends, accepting, client_part_of, on_fresh, client_on_text, client_on_ack, client_on_syn, client_on_rst, client_on_unacceptable, client_on_segment, answers_syn, established, on_greeting, heard_open, reply_to, client_arrived};
ghost use Rattle.lard_client.specs.Leaving.{IsHeld, IsWritable};
ghost use Rattle.lard_segment.specs.Segment.{said};

use super::Client;
use crate::heard::Heard;
use crate::phase::Phase;
use lard_arrival::{bare, is_acceptable, is_allowed, peer_mss};
use lard_base::limits::MAX_STREAM_BYTES;
use lard_segment::Segment;
use lard_send::Ack;

impl Client {
    /// Takes a segment, and says which part of its data was accepted (RFC 9293, 3.10.7.3 and 3.10.7.4). The reply,
    /// which `emit` never gives, is to be sent where there is one: the client was aborted, and the segment has ACK and
    /// no RST.
    #[tactic(auto, unfolding(crate::specs::Arriving::client_arrived))]
    pub fn arrive(&mut self, segment: &Segment<'_>) -> Heard
        ensures rule { (result, self.new) ≡ client_arrived self.old (said segment.now) }
        ensures part { result.from + result.len ≤ length segment.now.payload.now }
        ensures held { IfSome result.reply (λ ready. IsHeld self.new ready) }
        ensures writable { IfSome result.reply (λ ready. IsWritable ready) }
    {
        match self.phase {
            Phase::Open => return self.hear(segment),
            Phase::Aborted => return self.refuse(segment),
            Phase::Reset => return Heard::nothing(),
        }
    }

    /// Takes a segment while the client is open.
    fn hear(&mut self, segment: &Segment<'_>) -> Heard
        ensures { (result, self.new) ≡ heard_open self.old (said segment.now) }
    {
        if self.send.una() == 0 {
            return self.on_greeting(segment);
        }
        self.on_segment(segment)
    }

    /// Answers a segment after the client aborted.
    fn refuse(&self, segment: &Segment<'_>) -> Heard
        ensures { result ≡ reply_to self.now (said segment.now) }
    {
        if segment.flags.ack && !segment.flags.rst {
            return Heard {
                reply: Some(self.refusal(segment.ack)),
                ..Heard::nothing()
            };
        }
        Heard::nothing()
    }

    /// RFC 9293, 3.10.7.3, while the client's SYN is not acknowledged: check the ACK, the RST and the SYN bit.
    fn on_greeting(&mut self, segment: &Segment<'_>) -> Heard
        requires { self.old.send.una ≡ 0 }
        ensures { (result, self.new) ≡ on_greeting self.old (said segment.now) }
    {
        if !self.answers_syn(segment) {
            return Heard::nothing();
        }
        if segment.flags.rst {
            self.phase = Phase::Reset;
            return Heard::nothing();
        }
        if segment.flags.syn {
            self.establish(segment);
        }
        Heard::nothing()
    }

    /// Whether a segment acknowledges the SYN.
    fn answers_syn(&self, segment: &Segment<'_>) -> bool
        ensures { result ≡ answers_syn self.now (said segment.now) }
    {
        segment.flags.ack && (segment.ack.offset_from(self.send.iss()) == 1 && 0 < self.send.nxt())
    }

    /// Takes the cluster's SYN, which acknowledges the client's.
    fn establish(&mut self, segment: &Segment<'_>)
        requires { self.old.send.una ≡ 0 }
        ensures { self.new ≡ established self.old (said segment.now) }
    {
        self.send.peer(segment.seq, peer_mss(segment.mss));
        let _ack = self.send.ack(segment.ack, segment.seq, segment.wnd);
        self.owed = true;
    }

    /// RFC 9293, 3.10.7.4, first: check sequence number.
    fn on_segment(&mut self, segment: &Segment<'_>) -> Heard
        ensures { (result, self.new) ≡ client_on_segment self.old (said segment.now) }
    {
        if is_acceptable(segment, self.rcv_nxt(), self.rcv_wnd() as u32) {
            return self.on_rst(segment);
        }
        self.on_unacceptable(segment)
    }

    /// RFC 9293, 3.10.7.4, first, for a segment that is not acceptable: an ACK is owed, unless it is a reset. At a window
    /// of 0 a valid ACK of one is taken.
    fn on_unacceptable(&mut self, segment: &Segment<'_>) -> Heard
        ensures { (result, self.new) ≡ client_on_unacceptable self.old (said segment.now) }
    {
        if is_allowed(segment, self.rcv_nxt(), self.rcv_wnd() as u32) {
            self.owed = true;
            return self.on_ack(&bare(segment));
        }
        if !segment.flags.rst {
            self.owed = true;
        }
        Heard::nothing()
    }

    /// RFC 9293, 3.10.7.4, second: check the RST bit. The third, on security, has nothing to check here.
    fn on_rst(&mut self, segment: &Segment<'_>) -> Heard
        ensures { (result, self.new) ≡ client_on_rst self.old (said segment.now) }
    {
        if !segment.flags.rst {
            return self.on_syn(segment);
        }
        if segment.seq == self.rcv_nxt() {
            self.phase = Phase::Reset;
        } else {
            self.owed = true;
        }
        Heard::nothing()
    }

    /// RFC 9293, 3.10.7.4, fourth: check the SYN bit.
    fn on_syn(&mut self, segment: &Segment<'_>) -> Heard
        ensures { (result, self.new) ≡ client_on_syn self.old (said segment.now) }
    {
        if segment.flags.syn {
            self.owed = true;
            return Heard::nothing();
        }
        self.on_ack(segment)
    }

    /// RFC 9293, 3.10.7.4, fifth: check the ACK field. The sixth, on urgent data, is left out: no pointer is read.
    fn on_ack(&mut self, segment: &Segment<'_>) -> Heard
        ensures { (result, self.new) ≡ client_on_ack self.old (said segment.now) }
    {
        if !segment.flags.ack {
            return Heard::nothing();
        }
        match self.send.ack(segment.ack, segment.seq, segment.wnd) {
            Ack::Beyond => {
                self.owed = true;
                return Heard::nothing();
            }
            Ack::New(_) | Ack::Same => return self.on_text(segment),
        }
    }

    /// RFC 9293, 3.10.7.4, seventh: process the segment text, and eighth: check the FIN bit.
    fn on_text(&mut self, segment: &Segment<'_>) -> Heard
        ensures { (result, self.new) ≡ client_on_text self.old (said segment.now) }
    {
        if segment.payload.is_empty() && !segment.flags.fin {
            return Heard::nothing();
        }
        self.owed = true;
        self.on_fresh(segment)
    }

    /// Drops what begins after RCV.NXT, and after a FIN all. Accepts what fits of the rest.
    fn on_fresh(&mut self, segment: &Segment<'_>) -> Heard
        ensures { (result, self.new) ≡ on_fresh self.old (said segment.now) }
    {
        if self.begins_after(segment) || self.eof {
            return Heard::nothing();
        }
        let part = self.part_of(segment);
        self.accept(part.len, part.eof);
        part
    }

    /// Whether an acceptable segment begins after RCV.NXT.
    fn begins_after(&self, segment: &Segment<'_>) -> bool
        ensures { result ≡ client_begins_after self.now (said segment.now) }
    {
        segment.seq.in_window(self.rcv_nxt(), self.rcv_wnd() as u32)
            && segment.seq != self.rcv_nxt()
    }

    /// The part of a segment from RCV.NXT on that there is room for.
    fn part_of(&self, segment: &Segment<'_>) -> Heard
        ensures { result ≡ client_part_of self.now (said segment.now) }
    {
        let known = self.rcv_nxt().offset_from(segment.seq);
        let size = segment.payload.len();
        let len = size
            .saturating_sub(known as usize)
            .min(self.room() as usize);
        Heard {
            from: size.min(known as usize) as u32,
            len: len as u32,
            eof: segment.flags.fin && known as usize + len == size,
            reply: None,
        }
    }

    /// How many bytes may be accepted: what the window leaves, and no more than are left of 2^30.
    fn room(&self) -> u32
        ensures { result ≡ client_room self.now }
    {
        (self.rcv_wnd() as u32).min(MAX_STREAM_BYTES - self.accepted)
    }

    /// Accepts so many bytes, and the FIN behind them where `fin` is true, which finishes the client's own side.
    fn accept(&mut self, n: u32, fin: bool)
        requires { n ≤ client_room self.old }
        ensures { self.new ≡ accepting self.old n fin }
    {
        self.accepted += n;
        if self.holding {
            self.held += n as u16;
        }
        self.eof = fin;
        if fin {
            self.send.finish();
        }
    }
}
