//! Segments in few words, and a run of an endpoint against the steps that are written down.

ghost use Rattle.lard_endpoint.specs.Leaving.{IsReady};

use lard_base::{NoMemory, Reason};
use lard_endpoint::{Arrival, Endpoint};
use lard_segment::{Flags, Ready, Segment};
use lard_seq::Seq;
use lard_shared::Shared;
use std::alloc::Global;

/// A window, and as many bytes as a whole receive window has.
pub const W: u16 = 65_535;

pub static X: [u8; 16_384] = [b'x'; 16_384];

/// A segment, by its numbers and its data. Each but `Syn` and `Rst` has ACK.
#[derive(Clone, Copy)]
pub enum Said {
    Syn(u32),
    SynAck(u32, u32),
    Ack(u32, u32),
    Data(u32, u32, &'static [u8]),
    Push(u32, u32, &'static [u8]),
    Fin(u32, u32, &'static [u8]),
    PushFin(u32, u32, &'static [u8]),
    /// A whole window of bytes, and perhaps the FIN.
    Whole(u32, u32, bool),
    Bare(u32, &'static [u8]),
    Rst(u32),
    RstAck(u32, u32),
}

/// What happens to an endpoint, and what it makes of it. The window stands behind a segment.
#[derive(Clone, Copy)]
pub enum Step {
    /// The segment comes, and is answered so.
    Comes(Said, u16, Arrival),
    /// `emit` gives the segment.
    Sends(Said, u16),
    /// `emit` gives a segment with so many bytes.
    SendsBytes(u32),
    /// `emit` gives none.
    Rests,
    /// `timer` gives the segment.
    Again(Said, u16),
    /// `timer` gives none.
    Idle,
    Queues(&'static [u8]),
    Finishes,
    Consumes(usize),
    Discards,
    /// These bytes are unread.
    Unread(&'static [u8]),
    /// So many are.
    Holds(usize),
    /// All is acknowledged, or not.
    Clear(bool),
    /// The peer's FIN was taken, or not.
    PeerDone(bool),
    /// The peer reset the connection, or not.
    WasReset(bool),
}

const ACK: Flags = Flags {
    syn: false,
    ack: true,
    fin: false,
    rst: false,
    psh: false,
};

/// The segment that is said.
pub fn segment(said: Said, wnd: u16) -> Segment<'static> {
    let (seq, ack, flags, payload) = match said {
        Said::Syn(seq) => (
            seq,
            0,
            Flags {
                syn: true,
                ack: false,
                ..ACK
            },
            b"".as_slice(),
        ),
        Said::SynAck(seq, ack) => (seq, ack, Flags { syn: true, ..ACK }, b"".as_slice()),
        Said::Ack(seq, ack) => (seq, ack, ACK, b"".as_slice()),
        Said::Data(seq, ack, data) => (seq, ack, ACK, data),
        Said::Push(seq, ack, data) => (seq, ack, Flags { psh: true, ..ACK }, data),
        Said::Fin(seq, ack, data) => (seq, ack, Flags { fin: true, ..ACK }, data),
        Said::PushFin(seq, ack, data) => (
            seq,
            ack,
            Flags {
                fin: true,
                psh: true,
                ..ACK
            },
            data,
        ),
        Said::Whole(seq, ack, fin) => (seq, ack, Flags { fin, ..ACK }, X.as_slice()),
        Said::Bare(seq, data) => (seq, 0, Flags { ack: false, ..ACK }, data),
        Said::Rst(seq) => (
            seq,
            0,
            Flags {
                rst: true,
                ack: false,
                ..ACK
            },
            b"".as_slice(),
        ),
        Said::RstAck(seq, ack) => (seq, ack, Flags { rst: true, ..ACK }, b"".as_slice()),
    };
    Segment {
        seq: Seq(seq),
        ack: Seq(ack),
        flags,
        wnd,
        mss: named_mss(said),
        payload,
    }
}

/// The cluster's SYN alone names a size.
fn named_mss(said: Said) -> Option<u16> {
    match said {
        Said::SynAck(_, _) => Some(1460),
        _ => None,
    }
}

/// Whether what is to be sent is the segment that is said.
fn is_said(endpoint: &Endpoint, ready: Ready, said: Said, wnd: u16) -> bool
    requires { IsReady endpoint.now ready }
{
    let mut buf = [0; 1460];
    endpoint.segment(ready, &mut buf) == segment(said, wnd)
}

fn is_sent(endpoint: &mut Endpoint, said: Said, wnd: u16) -> bool {
    match endpoint.emit() {
        Some(ready) => is_said(endpoint, ready, said, wnd),
        None => false,
    }
}

fn is_sent_again(endpoint: &mut Endpoint, said: Said, wnd: u16) -> bool {
    match endpoint.timer() {
        Some(ready) => is_said(endpoint, ready, said, wnd),
        None => false,
    }
}

fn is_queued(endpoint: &mut Endpoint, bytes: &[u8]) -> bool {
    let total = endpoint.total() as usize;
    if endpoint.finished() || bytes.len() > 100_000 || total > 100_000 {
        return false;
    }
    endpoint.queue(bytes).is_ok()
}

/// Queues bytes that have other owners, where there is room for them.
pub fn is_queued_shared(endpoint: &mut Endpoint, bytes: Shared) -> bool {
    let total = endpoint.total() as usize;
    if endpoint.finished() || bytes.len() > 100_000 || total > 100_000 {
        return false;
    }
    endpoint.queue_shared(bytes).is_ok()
}

fn is_consumed(endpoint: &mut Endpoint, n: usize) -> bool {
    if n > endpoint.unread().len() {
        return false;
    }
    endpoint.consume(n);
    true
}

/// Whether the endpoint does what the step says.
fn agrees(endpoint: &mut Endpoint, step: Step) -> bool {
    match step {
        Step::Comes(said, wnd, answer) => return endpoint.arrive(&segment(said, wnd)) == answer,
        Step::Sends(said, wnd) => return is_sent(endpoint, said, wnd),
        Step::SendsBytes(len) => return endpoint.emit().map_or(0, |ready| ready.len) == len,
        Step::Rests => return endpoint.emit().is_none(),
        Step::Again(said, wnd) => return is_sent_again(endpoint, said, wnd),
        Step::Idle => return endpoint.timer().is_none(),
        Step::Queues(bytes) => return is_queued(endpoint, bytes),
        Step::Consumes(n) => return is_consumed(endpoint, n),
        Step::Unread(bytes) => return endpoint.unread() == bytes,
        Step::Holds(n) => return endpoint.unread().len() == n,
        Step::Clear(clear) => return endpoint.clear() == clear,
        Step::PeerDone(done) => return endpoint.peer_done() == done,
        Step::WasReset(reset) => return endpoint.was_reset() == reset,
        Step::Finishes => {
            endpoint.finish();
            return true;
        }
        Step::Discards => {
            endpoint.discard_on();
            return true;
        }
    }
}

/// How many of the steps come out as they are written down, up to the first that does not.
pub fn done(endpoint: &mut Endpoint, steps: &[Step]) -> usize {
    for (count, step) in steps.iter().enumerate() {
        if !agrees(endpoint, *step) {
            return count;
        }
    }
    steps.len()
}

/// An endpoint that took the SYN of a client with these numbers. Its own has the number `iss`.
pub fn listening(
    alloc: Global,
    isn: u32,
    iss: u32,
    wnd: u16,
    mss: Option<u16>,
) -> Result<Endpoint, NoMemory> {
    let syn = Segment {
        seq: Seq(isn),
        ack: Seq(0),
        flags: Flags {
            syn: true,
            ack: false,
            fin: false,
            rst: false,
            psh: false,
        },
        wnd,
        mss,
        payload: b"",
    };
    Endpoint::listen(alloc, &syn, Seq(iss))
}

/// The first run that is not done to its end, by its name, and how many of its steps are.
pub type Undone = Option<(&'static str, usize)>;

/// How many of the steps an endpoint does from the SYN of a client on, whose first number is 1000. Its own is 5000.
pub fn from_syn(
    alloc: Global,
    wnd: u16,
    mss: Option<u16>,
    steps: &[Step],
) -> Result<usize, NoMemory> {
    let mut endpoint = listening(alloc, 1000, 5000, wnd, mss)?;
    let count = done(&mut endpoint, steps);
    endpoint.kill();
    Ok(count)
}

/// The same, where its SYN is acknowledged and the client's window is this one.
pub fn established(
    alloc: Global,
    wnd: u16,
    mss: Option<u16>,
    steps: &[Step],
) -> Result<usize, NoMemory> {
    let mut endpoint = listening(alloc, 1000, 5000, 0, mss)?;
    let opening = [
        Step::Sends(Said::SynAck(5000, 1001), 16_384),
        Step::Comes(Said::Ack(1001, 5001), wnd, Arrival::Fine),
    ];
    let mut count = done(&mut endpoint, &opening);
    if count == 2 {
        count = done(&mut endpoint, steps);
    }
    endpoint.kill();
    Ok(count)
}

/// How many of the steps are done, and what `end` then gives, of a connection whose numbers begin at these.
pub fn ended(
    alloc: Global,
    isn: u32,
    iss: u32,
    steps: &[Step],
) -> Result<(usize, Option<(Reason, u32, u32)>), NoMemory> {
    let mut endpoint = listening(alloc, isn, iss, W, None)?;
    let count = done(&mut endpoint, steps);
    match endpoint.end() {
        Ok(last) => Ok((count, Some((last.reason, last.snd.0, last.rcv.0)))),
        Err(endpoint) => {
            endpoint.kill();
            Ok((count, None))
        }
    }
}
