//! The receiving half: it takes the bytes that are next in order, and lends those that are not read yet.

ghost use Rattle.std.specs.Prelude.{◌≡◌, ◌≤◌, false, [], length, take, drop, IfOk};
ghost use Rattle.lard_recv.specs.Recv.{IsReceived, restored, awaited, receive_room, begins_after, bytes_taken, arrived, brought, consumed, discarded};

use crate::buffer::Buffer;
use lard_base::NoMemory;
use lard_base::limits::{MAX_STREAM_BYTES, RECEIVE_WINDOW};
use lard_seq::Seq;
use std::alloc::Global;
use std::marker::Model;

/// What a segment brought.
#[derive(Clone, Copy, Debug, PartialEq, Eq)]
pub enum Took {
    /// So many bytes, or none but the FIN.
    Bytes(u32),
    /// Nothing that was not taken before, or for which there is room.
    Old,
    /// Nothing yet: it begins after the byte that is awaited.
    Ahead,
}

/// The bytes of the peer, as far as they came in order. Only `make` and `restore` take memory.
#[derive(Drop)]
pub struct RecvHalf {
    /// The sequence number of the peer's SYN, IRS.
    irs: Seq,
    /// How many bytes came in order, at most 2^30; the SYN and the FIN do not count.
    got: u32,
    /// The peer's FIN was taken, behind all its bytes.
    fin: bool,
    /// The last of the bytes that came, which are not read yet: at most 16,384.
    unread: Buffer,
    /// What comes is counted and acknowledged, and not kept; nothing is unread then.
    discarding: bool,
}

impl Model for RecvHalf {
    ghost use Rattle.lard_recv.specs.Recv.{Received, IsReceived};

    ghost Value = { Received };

    ghost view = { λ r. record { irs = r.irs.0; got = r.got; fin = r.fin; unread = r.unread; discarding = r.discarding } };

    ghost invariant = { λ r. IsReceived (record { irs = r.irs.0; got = r.got; fin = r.fin; unread = r.unread; discarding = r.discarding }) };
}

impl RecvHalf {
    /// A half that took the SYN with this number, and nothing else. `NoMemory` where memory runs out.
    pub fn make(alloc: Global, irs: Seq) -> Result<RecvHalf, NoMemory>
        ensures { IfOk result (λ half. half ≡ restored irs.0 0 false []) }
    {
        RecvHalf::restore(alloc, irs, 0, false, &[])
    }

    /// A half that took `got` bytes after the SYN with the number `irs`, the last of which are `unread`, and then the
    /// FIN where `fin` is true. The numbers of `lard_base::EndpointParts` that are valid are such. `NoMemory` where
    /// memory runs out.
    pub fn restore(
        alloc: Global,
        irs: Seq,
        got: u32,
        fin: bool,
        unread: &[u8],
    ) -> Result<RecvHalf, NoMemory>
        requires buffered { length unread.now ≤ RECEIVE_WINDOW }
        requires within { length unread.now ≤ got }
        requires received { got ≤ MAX_STREAM_BYTES }
        ensures { IfOk result (λ half. half ≡ restored irs.0 got fin unread.now) }
    {
        let mut buffer = Buffer::new(alloc)?;
        buffer.push(unread);
        Ok(RecvHalf {
            irs,
            got,
            fin,
            unread: buffer,
            discarding: false,
        })
    }

    /// Takes what a segment brings: of its bytes, the first of which has the number `seq`, those that are awaited, up
    /// to the window, and its FIN where all bytes before it are taken (RFC 9293, 3.10.7.4, seventh and eighth).
    pub fn arrive(&mut self, seq: Seq, payload: &[u8], fin: bool) -> Took
        ensures took { result ≡ brought self.old seq.0 payload.now fin }
        ensures after { self.new ≡ arrived self.old seq.0 payload.now fin }
    {
        let next = self.next();
        if is_after(seq, next) {
            return Took::Ahead;
        }
        if self.fin {
            return Took::Old;
        }
        let known = next.offset_from(seq) as usize;
        let fresh = part(payload, known, self.window() as usize);
        let ends = fin && known + fresh.len() == payload.len();
        self.take(fresh, ends);
        if fresh.is_empty() && !ends {
            return Took::Old;
        }
        Took::Bytes(fresh.len() as u32)
    }

    /// Takes bytes that are next in order, and the FIN behind them where `fin` is true.
    fn take(&mut self, bytes: &[u8], fin: bool)
        requires { length bytes.now ≤ receive_room self.old }
        ensures { self.new ≡ bytes_taken self.old bytes.now fin }
    {
        self.got += bytes.len() as u32;
        self.fin = fin;
        if !self.discarding {
            self.unread.push(bytes);
        }
    }

    /// Reads off the first `n` of the unread bytes, of which there are as many (RFC 9293, 3.10.3).
    pub fn consume(&mut self, n: usize)
        requires { n ≤ length self.old.unread }
        ensures { self.new ≡ consumed self.old n }
    {
        self.unread.consume(n);
    }

    /// Drops what is unread, and from now on all that comes, which is counted and acknowledged all the same: as behind
    /// an answer that closes the connection (RFC 9112, 9.6).
    pub fn discard_on(&mut self)
        ensures { self.new ≡ discarded self.old }
    {
        self.unread.clear();
        self.discarding = true;
    }

    /// How many bytes may come, RCV.WND (RFC 9293, 3.8.6): 16,384 less the unread ones, and no more than are left of
    /// 2^30.
    pub fn window(&self) -> u32
        ensures { result ≡ receive_room self.now }
    {
        let free = RECEIVE_WINDOW as usize - self.unread.as_slice().len();
        (free as u32).min(MAX_STREAM_BYTES - self.got)
    }

    /// The number that is awaited, RCV.NXT (RFC 9293, 3.3.1 and 3.4).
    pub fn next(&self) -> Seq
        ensures { result.0 ≡ awaited self.now }
    {
        self.irs.add(1 + self.got + self.fin as u32)
    }

    /// The sequence number of the peer's SYN, IRS (RFC 9293, 3.3.1).
    pub fn irs(&self) -> Seq
        ensures { result.0 ≡ self.now.irs }
    {
        self.irs
    }

    /// How many bytes came in order, at most 2^30. The SYN and the FIN do not count.
    pub fn got(&self) -> u32
        ensures value { result ≡ self.now.got }
        ensures law { IsReceived self.now }
    {
        self.got
    }

    /// Whether the peer's FIN was taken (RFC 9293, 3.10.7.4, eighth).
    pub fn finished(&self) -> bool
        ensures { result ≡ self.now.fin }
    {
        self.fin
    }

    /// Whether what comes is dropped: true exactly after `discard_on`.
    pub fn discarding(&self) -> bool
        ensures { result ≡ self.now.discarding }
    {
        self.discarding
    }

    /// The bytes that came and were not consumed, at most 16,384, lent without a copy.
    pub fn unread(&self) -> &[u8]
        ensures { result.now ≡ self.now.unread }
    {
        self.unread.as_slice()
    }
}

/// Whether a segment with the number `seq` begins after the number that is awaited.
fn is_after(seq: Seq, next: Seq) -> bool
    ensures { result ≡ begins_after seq.0 next.0 }
{
    let ahead = seq.offset_from(next);
    ahead > 0 && ahead < 1 << 31
}

/// The bytes behind the first `known` ones, at most `most` of them.
fn part(payload: &[u8], known: usize, most: usize) -> &[u8]
    ensures value { result.now ≡ take most (drop known payload.now) }
    ensures bound { length result.now ≤ most }
{
    let rest = &payload[known.min(payload.len())..];
    &rest[..most.min(rest.len())]
}
