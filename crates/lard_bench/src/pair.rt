//! Bytes that go through a pair of endpoints in memory, with no loss.

ghost use Rattle.std.specs.Prelude.{◌≡◌, ◌≤◌, length};
ghost use Rattle.lard_base.specs.Parts.{IsValidParts};
ghost use Rattle.lard_endpoint.specs.Leaving.{IsReady};

use lard_base::limits::{MAX_SEGMENT_BYTES, MAX_SEGMENT_DATA, MAX_STREAM_BYTES, RECEIVE_WINDOW};
use lard_base::{Bytes, ConnId, EndpointParts, NoMemory};
use lard_endpoint::Endpoint;
use lard_segment::{Dir, Ready, decode, encode};
use std::alloc::Global;

/// What went from the one endpoint to the other.
#[derive(Drop)]
pub struct Pushed {
    /// The segments of the sender.
    pub segments: u64,
    /// The bytes that the other read.
    pub bytes: u64,
}

/// The bytes that are queued at a time, which fill the window.
const CHUNK: u32 = RECEIVE_WINDOW as u32;

/// The most bytes of data in a segment, as the length of a buffer.
const DATA: usize = MAX_SEGMENT_DATA as usize;

/// Two endpoints of one connection.
struct Pair {
    from: Endpoint,
    to: Endpoint,
}

/// Pushes so many bytes, or a few more, through a pair of endpoints, in chunks of a window.
pub fn push(alloc: Global, bytes: u32) -> Result<Pushed, NoMemory> {
    let mut pair = Pair::new(alloc)?;
    let pushed = pair.push(bytes);
    pair.end();
    pushed
}

/// The numbers from which an endpoint goes on: where the other begins it awaits.
fn parts(alloc: Global, irs: u32, iss: u32) -> EndpointParts
    ensures { IsValidParts result }
{
    EndpointParts {
        irs,
        iss,
        got: 0,
        fin: false,
        una: 1,
        wnd: RECEIVE_WINDOW,
        wl1: irs,
        wl2: iss,
        mss: MAX_SEGMENT_DATA,
        served: 0,
        unread: Bytes::from_vec(Vec::new(alloc)),
    }
}

impl Pair {
    fn new(alloc: Global) -> Result<Pair, NoMemory> {
        let from = Endpoint::adopt(alloc, &parts(alloc, 5_000, 1_000))?;
        match Endpoint::adopt(alloc, &parts(alloc, 1_000, 5_000)) {
            Ok(to) => return Ok(Pair { from, to }),
            Err(NoMemory) => {
                let _last = from.kill();
                return Err(NoMemory);
            }
        }
    }

    /// Spends both.
    fn end(self) {
        let Pair { from, to } = self;
        let _from = from.kill();
        let _to = to.kill();
    }

    /// Pushes the bytes, a segment and its acknowledgement at a time.
    fn push(&mut self, bytes: u32) -> Result<Pushed, NoMemory> {
        let chunk = [b'x'; CHUNK as usize];
        let mut payload = [0; DATA];
        let mut wire = [0; MAX_SEGMENT_BYTES];
        let mut pushed = Pushed {
            segments: 0,
            bytes: 0,
        };
        for _turn in 0..bytes {
            if pushed.bytes >= u64::from(bytes) {
                break;
            }
            self.fill(&chunk)?;
            let crossed = cross(
                &mut self.from,
                &mut self.to,
                &mut payload,
                &mut wire,
                Dir::ToCluster,
            );
            let read = read_all(&mut self.to);
            let _acknowledged = cross(
                &mut self.to,
                &mut self.from,
                &mut payload,
                &mut wire,
                Dir::ToClient,
            );
            pushed.segments = pushed.segments.saturating_add(u64::from(crossed));
            pushed.bytes = pushed.bytes.saturating_add(read as u64);
        }
        Ok(pushed)
    }

    /// Queues a chunk where all that was queued is acknowledged.
    fn fill(&mut self, chunk: &[u8]) -> Result<(), NoMemory>
        requires { length chunk.now ≤ RECEIVE_WINDOW }
    {
        if !self.from.clear()
            || self.from.finished()
            || self.from.total() > MAX_STREAM_BYTES - CHUNK
        {
            return Ok(());
        }
        self.from.queue(chunk)
    }
}

/// The next segment goes over: whether there was one.
fn cross(
    from: &mut Endpoint,
    to: &mut Endpoint,
    payload: &mut [u8],
    wire: &mut [u8],
    dir: Dir,
) -> bool
    requires room { length payload.old ≡ MAX_SEGMENT_DATA }
    requires wire { length wire.old ≡ MAX_SEGMENT_BYTES }
{
    match from.emit() {
        Some(ready) => {
            carry(from, to, ready, payload, wire, dir);
            true
        }
        None => false,
    }
}

/// A segment is written to its bytes, read from them, and taken.
fn carry(
    from: &Endpoint,
    to: &mut Endpoint,
    ready: Ready,
    payload: &mut [u8],
    wire: &mut [u8],
    dir: Dir,
)
    requires ready { IsReady from.now ready }
    requires room { length payload.old ≡ MAX_SEGMENT_DATA }
    requires wire { length wire.old ≡ MAX_SEGMENT_BYTES }
{
    let Some(c) = ConnId::new(1) else {
        return;
    };
    let segment = from.segment(ready, payload);
    let len = encode(&segment, c, dir, wire);
    if let Ok(arrived) = decode(&wire[..len], c, dir) {
        let _arrival = to.arrive(&arrived);
    }
}

/// Reads all that is unread: how many bytes.
fn read_all(endpoint: &mut Endpoint) -> usize {
    let unread = endpoint.unread().len();
    endpoint.consume(unread);
    unread
}
