//! What is held of an input, from the first byte of the line that comes next.

ghost use Rattle.std.specs.Prelude.{◌≡◌, ℕ, ◌+◌, ◌≤◌, ◌<◌, ◌^◌, ◌⊎◌, [], ◌++◌, length, drop, take, None, IsSome, IfOk, OnOk, OnErr, IsErrOf};
ghost use Rattle.std.specs.Io.KnownBytes.{IsAtEnd};
ghost use Rattle.std.specs.List.{position};
ghost use Rattle.lard_base.specs.Causes.{Rose};
ghost use Rattle.lard_base.specs.Outside.{TakesIn};
ghost use Rattle.lard_lines.specs.Lines.{is_feed};

use lard_base::input::PIECE;
use lard_base::{Failed, InputFault, NoMemory, Source};
use std::alloc::Global;
use std::marker::Model;

/// The lines of an input: the bytes that were read and not passed yet lie together, from `start` on.
#[derive(Drop)]
pub struct Lines {
    bytes: Vec<u8>,
    start: usize,
    /// Where one read of the source puts its bytes.
    piece: Vec<u8>,
    /// How many bytes were read in all.
    read: usize,
    /// How many bytes the input may have.
    most: usize,
}

impl Model for Lines {
    ghost use Rattle.std.specs.Prelude.{◌≡◌, ◌+◌, ◌≤◌, ◌^◌, length, drop};
    ghost use Rattle.lard_base.specs.declared.input.TheConstants.{PIECE};
    ghost use Rattle.lard_lines.specs.Lines.{Held};

    ghost Value = { Held };

    ghost view = { λ l. record { rest = drop l.start l.bytes.items; read = l.read; most = l.most } };

    ghost invariant = { λ l. (l.start ≤ length l.bytes.items) × (length l.bytes.items ≤ l.start + l.read) × (length l.piece.items ≡ PIECE) × (l.read ≤ l.most + 1) × (l.most ≤ 2 ^ 30) };
}

impl Lines {
    /// Nothing was read of an input that may have `most` bytes, at most 2^30. It takes the memory of a piece at once. `NoMemory`
    /// where memory runs out.
    pub fn new(alloc: Global, most: usize) -> Result<Lines, NoMemory>
        requires { most ≤ 2 ^ 30 }
        ensures { IfOk result (λ lines. lines ≡ record { rest = []; read = 0; most = most }) }
    {
        Ok(Lines {
            bytes: Vec::new(alloc),
            start: 0,
            piece: zeros(alloc, PIECE)?,
            read: 0,
            most,
        })
    }

    /// The bytes that were read and not passed yet.
    pub fn rest(&self) -> &[u8]
        ensures value { result.now ≡ self.now.rest }
        ensures small { length result.now ≤ self.now.read }
        ensures bound { self.now.read ≤ self.now.most + 1 }
    {
        &self.bytes.as_slice()[self.start..]
    }

    /// Reads on until a whole line is at hand, and answers how long it is without its line feed: `None` where the
    /// source ends before, or one byte more than the input may have was read. Where a whole line is at hand already nothing is
    /// read. It takes no byte more than that from the source, and keeps each that it takes, also where it fails. The first call
    /// that fails ends it by `Failed`, and `NoMemory` comes where memory runs out: no whole line is at hand then, and no more
    /// bytes were read than the input may have.
    pub fn find_line<S: Source>(&mut self, source: &mut S) -> Result<Option<usize>, InputFault>
        ensures at_hand { IsSome (position is_feed self.old.rest) → (self.new ≡ self.old) × (source.new ≡ source.old) }
        ensures taken { TakesIn (S.left source.old) (S.left source.new) self.old.rest self.new.rest }
        ensures count { self.new.read + length self.old.rest ≡ self.old.read + length self.new.rest }
        ensures bound { self.new.read ≤ self.old.most + 1 }
        ensures most { self.new.most ≡ self.old.most }
        ensures found { IfOk result (λ at. at ≡ position is_feed self.new.rest) }
        ensures ended { IfOk result (λ at. at ≡ None → IsAtEnd (S.left source.new) ⊎ (self.new.read ≡ self.old.most + 1)) }
        ensures err { OnErr result (position is_feed self.new.rest ≡ None) }
        ensures within { OnErr result (self.new.read ≤ self.old.most) }
        ensures failed { IsErrOf result InputFault.Failed → Rose (S.faults source.old) (S.faults source.new) }
        ensures later { S.faults source.old ≤ S.faults source.new }
        ensures same { ¬ (IsErrOf result InputFault.Failed) → S.faults source.new ≡ S.faults source.old }
    {
        let mut found = feed_in(self.rest());
        while found.is_none() && self.read <= self.most {
            let searched = self.rest().len();
            if self.read_on(source)? == 0 {
                return Ok(None);
            }
            found = feed_from(self.rest(), searched);
        }
        Ok(found)
    }

    /// Passes the first `n` bytes and the line feed behind them, which are at hand.
    pub fn pass(&mut self, n: usize)
        requires { n < length self.old.rest }
        ensures { self.new ≡ record { rest = drop (n + 1) self.old.rest; read = self.old.read; most = self.old.most } }
    {
        self.start = self.start + n + 1;
    }

    /// Reads a piece behind the bytes at hand, and answers how many bytes it has.
    fn read_on<S: Source>(&mut self, source: &mut S) -> Result<usize, InputFault>
        requires { self.old.read ≤ self.old.most }
        ensures taken { TakesIn (S.left source.old) (S.left source.new) self.old.rest self.new.rest }
        ensures count { self.new.read + length self.old.rest ≡ self.old.read + length self.new.rest }
        ensures more { IfOk result (λ n. self.new.read ≡ self.old.read + n) }
        ensures bound { self.new.read ≤ self.old.most + 1 }
        ensures most { self.new.most ≡ self.old.most }
        ensures end { IfOk result (λ n. n ≡ 0 → IsAtEnd (S.left source.new)) }
        ensures err { OnErr result (self.new ≡ self.old) }
        ensures failed { IsErrOf result InputFault.Failed → Rose (S.faults source.old) (S.faults source.new) }
        ensures later { S.faults source.old ≤ S.faults source.new }
        ensures same { ¬ (IsErrOf result InputFault.Failed) → S.faults source.new ≡ S.faults source.old }
    {
        to_front(&mut self.bytes, self.start);
        self.start = 0;
        let room = PIECE.min(self.most + 1 - self.read);
        let n = add_piece(source, &mut self.bytes, &mut self.piece, room)?;
        self.read += n;
        Ok(n)
    }
}

/// Adds the bytes of one read to the end of others, and answers how many they are. They go through the first `room` bytes
/// of the piece.
fn add_piece<S: Source>(
    source: &mut S,
    bytes: &mut Vec<u8>,
    piece: &mut Vec<u8>,
    room: usize,
) -> Result<usize, InputFault>
    requires some { 0 < room }
    requires fits { room ≤ length piece.old.items }
    ensures taken { TakesIn (S.left source.old) (S.left source.new) bytes.old.items bytes.new.items }
    ensures bound { IfOk result (λ n. n ≤ room) }
    ensures count { IfOk result (λ n. length bytes.new.items ≡ length bytes.old.items + n) }
    ensures end { IfOk result (λ n. n ≡ 0 → IsAtEnd (S.left source.new)) }
    ensures err { OnErr result (bytes.new.items ≡ bytes.old.items) }
    ensures piece { length piece.new.items ≡ length piece.old.items }
    ensures failed { IsErrOf result InputFault.Failed → Rose (S.faults source.old) (S.faults source.new) }
    ensures later { S.faults source.old ≤ S.faults source.new }
    ensures same { ¬ (IsErrOf result InputFault.Failed) → S.faults source.new ≡ S.faults source.old }
{
    add_read(source, bytes, &mut piece.as_mut_slice()[..room])
}

/// Adds the bytes of one read, which fills the front of a buffer, to the end of others.
fn add_read<S: Source>(
    source: &mut S,
    bytes: &mut Vec<u8>,
    buffer: &mut [u8],
) -> Result<usize, InputFault>
    requires { 0 < length buffer.old }
    ensures taken { TakesIn (S.left source.old) (S.left source.new) bytes.old.items bytes.new.items }
    ensures bound { IfOk result (λ n. n ≤ length buffer.old) }
    ensures count { IfOk result (λ n. length bytes.new.items ≡ length bytes.old.items + n) }
    ensures end { IfOk result (λ n. n ≡ 0 → IsAtEnd (S.left source.new)) }
    ensures err { OnErr result (bytes.new.items ≡ bytes.old.items) }
    ensures failed { IsErrOf result InputFault.Failed → Rose (S.faults source.old) (S.faults source.new) }
    ensures later { S.faults source.old ≤ S.faults source.new }
    ensures same { ¬ (IsErrOf result InputFault.Failed) → S.faults source.new ≡ S.faults source.old }
{
    if bytes.reserve(buffer.len()).is_err() {
        return Err(InputFault::NoMemory);
    }
    let taken = match source.read(buffer) {
        Ok(taken) => taken,
        Err(Failed) => return Err(InputFault::Failed),
    };
    match bytes.extend_from_slice(&buffer[..taken]) {
        Ok(()) => return Ok(taken),
        Err(_) => return Err(InputFault::NoMemory),
    }
}

/// So many bytes, each 0.
fn zeros(alloc: Global, n: usize) -> Result<Vec<u8>, NoMemory>
    ensures { IfOk result (λ zeros. length zeros.items ≡ n) }
{
    let bytes = vec![in alloc; 0; n]?;
    Ok(bytes)
}

/// Drops the bytes before `start`, and moves those from there on to the front.
fn to_front(bytes: &mut Vec<u8>, start: usize)
    requires { start ≤ length bytes.old.items }
    ensures moved { bytes.new.items ≡ drop start bytes.old.items }
    ensures len { length bytes.new.items + start ≡ length bytes.old.items }
{
    if start == 0 {
        return;
    }
    let len = bytes.len();
    bytes.copy_within(start..len, 0);
    bytes.truncate(len - start);
}

/// Where the first line feed stands.
fn feed_in(text: &[u8]) -> Option<usize>
    ensures { result ≡ position is_feed text.now }
{
    text.iter().position(|byte| *byte == b'\n')
}

/// Where the first line feed stands, where none is among the first bytes.
fn feed_from(text: &[u8], searched: usize) -> Option<usize>
    requires within { searched ≤ length text.now }
    requires searched { position is_feed (take searched text.now) ≡ None }
    ensures { result ≡ position is_feed text.now }
{
    match feed_in(&text[searched..]) {
        Some(at) => Some(searched + at),
        None => None,
    }
}
