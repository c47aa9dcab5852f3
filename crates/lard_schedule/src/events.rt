//! An event, from its words.

ghost use Rattle.std.specs.Prelude.{◌≡◌, ◌≤◌, IfSome};
ghost use Rattle.std.specs.List.{list_all};
ghost use Rattle.lard_schedule.specs.Events.{hex_bytes_of, client_alone, client_and_word, disk_of, event_after, event_of, get_of, inject_of, is_path, is_visible, may_keep, number_alone, open_of, place_of, settle_of, some_bytes_of, timer_of, write_of};
ghost use Rattle.lard_schedule.specs.Words.{Finds, Judges, left_of, seen_pair, words_of};

use crate::item::LineFault;
use crate::numbers::{client, client_in, conn, count, node_in, number};
use crate::verbs::{Verb, verb_in};
use crate::words::{Words, end, is, next, words_of};
use hex::FromHexError;
use lard_base::limits::{MAX_PATH_BYTES, MAX_SEGMENT_BYTES, MAX_SEGMENT_DATA};
use lard_base::{Bytes, ConnId, Event, Path, Place};
use std::alloc::Global;

/// The event that a line stands for behind `go`, the line given without its line feed: `Syntax` exactly where it is no line
/// of an event.
pub fn read_event(alloc: Global, line: &[u8]) -> Result<Event, LineFault>
    ensures { Judges result (event_of (words_of line.now)) }
{
    event(alloc, words_of(line))
}

/// The event that these words stand for.
#[tactic(auto, unfolding(crate::specs::Events::event_of))]
pub fn event(alloc: Global, words: Words<'_>) -> Result<Event, LineFault>
    ensures { Judges result (event_of (left_of words.entry)) }
{
    let (word, rest) = next(words).ok_or(LineFault::Syntax)?;
    let verb = verb_in(word).ok_or(LineFault::Syntax)?;
    event_after(alloc, verb, rest)
}

/// What comes after an event's verb.
fn event_after(alloc: Global, verb: Verb, words: Words<'_>) -> Result<Event, LineFault>
    ensures { Judges result (event_after verb (left_of words.entry)) }
{
    match verb {
        Verb::Open => return open(words).ok_or(LineFault::Syntax),
        Verb::Get => return get(alloc, words),
        Verb::Write => return write(alloc, words),
        Verb::Shut => return Ok(Event::Shut(client_alone(words).ok_or(LineFault::Syntax)?)),
        Verb::Abort => return Ok(Event::Abort(client_alone(words).ok_or(LineFault::Syntax)?)),
        Verb::Hold => return Ok(Event::Hold(client_alone(words).ok_or(LineFault::Syntax)?)),
        Verb::Take => return Ok(Event::Take(client_alone(words).ok_or(LineFault::Syntax)?)),
        Verb::Deliver => return Ok(Event::Deliver(number_alone(words).ok_or(LineFault::Syntax)?)),
        Verb::Lose => return Ok(Event::Lose(number_alone(words).ok_or(LineFault::Syntax)?)),
        Verb::Timer => return timer(words).ok_or(LineFault::Syntax),
        Verb::Disk => return disk(words).ok_or(LineFault::Syntax),
        Verb::Drain => return Ok(Event::Drain(number_alone(words).ok_or(LineFault::Syntax)?)),
        Verb::Clock => return Ok(Event::Clock(number_alone(words).ok_or(LineFault::Syntax)?)),
        Verb::Settle => return settle(words).ok_or(LineFault::Syntax),
        Verb::Inject => return inject(alloc, words),
    }
}

/// A client, and nothing more.
#[tactic(auto, unfolding(crate::specs::Events::client_alone))]
pub fn client_alone(words: Words<'_>) -> Option<ConnId>
    ensures { result ≡ client_alone (left_of words.entry) }
{
    let (c, words) = client(words)?;
    end(words)?;
    Some(conn(c))
}

/// A number below 2^32, and nothing more.
#[tactic(auto, unfolding(crate::specs::Events::number_alone))]
pub fn number_alone(words: Words<'_>) -> Option<u32>
    ensures { result ≡ number_alone (left_of words.entry) }
{
    let (n, words) = number(words)?;
    end(words)?;
    Some(n)
}

/// A client and one word.
#[tactic(auto, unfolding(crate::specs::Events::client_and_word))]
pub fn client_and_word(words: Words<'_>) -> Option<(u32, &[u8])>
    ensures found { Finds seen_pair result (client_and_word (left_of words.entry)) }
    ensures within { IfSome result (λ found. (1 ≤ found.0) × (found.0 ≤ ConnId.MAX)) }
{
    let (c, words) = client(words)?;
    let (word, words) = next(words)?;
    end(words)?;
    Some((c, word))
}

/// What comes after the word `open`.
#[tactic(auto, unfolding(crate::specs::Events::open_of))]
fn open(words: Words<'_>) -> Option<Event>
    ensures { result ≡ open_of (left_of words.entry) }
{
    let (c, words) = client(words)?;
    let (isn, words) = number(words)?;
    let (iss, words) = number(words)?;
    let (wnd, words) = count(words, 65_535)?;
    let (mss, words) = count(words, u32::from(MAX_SEGMENT_DATA))?;
    end(words)?;
    Some(Event::Open {
        c: conn(c),
        isn,
        iss,
        wnd: wnd as u16,
        mss: mss as u16,
    })
}

/// What comes after the word `get`: a client and a path.
#[tactic(auto, unfolding(crate::specs::Events::get_of))]
fn get(alloc: Global, words: Words<'_>) -> Result<Event, LineFault>
    ensures { Judges result (get_of (left_of words.entry)) }
{
    let (c, text) = client_and_word(words).ok_or(LineFault::Syntax)?;
    if !is_path(text) {
        return Err(LineFault::Syntax);
    }
    let path = Path::from_slice(alloc, text)?;
    Ok(Event::Get { c: conn(c), path })
}

/// What comes after the word `write`: a client and the bytes.
#[tactic(auto, unfolding(crate::specs::Events::write_of))]
fn write(alloc: Global, words: Words<'_>) -> Result<Event, LineFault>
    ensures { Judges result (write_of (left_of words.entry)) }
{
    let (c, word) = client_and_word(words).ok_or(LineFault::Syntax)?;
    let bytes = some_bytes(alloc, word)?;
    Ok(Event::Write { c: conn(c), bytes })
}

/// What comes after the word `timer`: a place and a client.
#[tactic(auto, unfolding(crate::specs::Events::timer_of))]
fn timer(words: Words<'_>) -> Option<Event>
    ensures { result ≡ timer_of (left_of words.entry) }
{
    let (word, words) = next(words)?;
    let place = place_in(word)?;
    let c = client_alone(words)?;
    if !may_keep(&place, c) {
        return None;
    }
    Some(Event::Timer { place, c })
}

/// What comes after the word `disk`: a node and a job, of which nothing is known here.
#[tactic(auto, unfolding(crate::specs::Events::disk_of))]
fn disk(words: Words<'_>) -> Option<Event>
    ensures { result ≡ disk_of (left_of words.entry) }
{
    let (n, words) = number(words)?;
    let j = number_alone(words)?;
    Some(Event::Disk { n, j })
}

/// What comes after the word `settle`: the most rounds.
#[tactic(auto, unfolding(crate::specs::Events::settle_of))]
fn settle(words: Words<'_>) -> Option<Event>
    ensures { result ≡ settle_of (left_of words.entry) }
{
    let (rounds, words) = count(words, u32::MAX)?;
    end(words)?;
    Some(Event::Settle(rounds))
}

/// What comes after the word `inject`: a client and the bytes of a packet.
#[tactic(auto, unfolding(crate::specs::Events::inject_of))]
fn inject(alloc: Global, words: Words<'_>) -> Result<Event, LineFault>
    ensures { Judges result (inject_of (left_of words.entry)) }
{
    let (c, word) = client_and_word(words).ok_or(LineFault::Syntax)?;
    let bytes = some_bytes(alloc, word)?;
    if bytes.len() > MAX_SEGMENT_BYTES {
        return Err(LineFault::Syntax);
    }
    Ok(Event::Inject { c: conn(c), bytes })
}

/// The bytes of hexadecimal digits in both cases, at least one byte.
#[tactic(auto, unfolding(crate::specs::Events::some_bytes_of))]
pub fn some_bytes(alloc: Global, word: &[u8]) -> Result<Bytes, LineFault>
    ensures { Judges result (some_bytes_of word.now) }
{
    let bytes = bytes_in(alloc, word)?;
    if bytes.len() < 1 {
        return Err(LineFault::Syntax);
    }
    Ok(bytes)
}

/// The bytes of hexadecimal digits in both cases: two digits a byte.
fn bytes_in(alloc: Global, word: &[u8]) -> Result<Bytes, LineFault>
    ensures { Judges result (hex_bytes_of word.now) }
{
    match hex::decode(alloc, word) {
        Ok(bytes) => return Ok(Bytes::from_vec(bytes)),
        Err(FromHexError::OutOfMemory) => return Err(LineFault::NoMemory),
        Err(_) => return Err(LineFault::Syntax),
    }
}

/// A place: `front`, `n1` to `n64`, `c1` to `c16384`.
#[tactic(auto, unfolding(crate::specs::Events::place_of))]
pub fn place_in(word: &[u8]) -> Option<Place>
    ensures { result ≡ place_of word.now }
{
    if is(word, "front") {
        return Some(Place::Front);
    }
    match word {
        [b'n', number @ ..] => return Some(Place::Node(node_in(number)?)),
        [b'c', number @ ..] => return Some(Place::Client(client_in(number)?)),
        _ => return None,
    }
}

/// Whether there are timers of this connection at the place: a client keeps those of its own connection alone.
fn may_keep(place: &Place, c: ConnId) -> bool
    ensures { result ≡ may_keep place.now c }
{
    match place {
        Place::Front => true,
        Place::Node(_) => true,
        Place::Client(n) => n.number() == c.number(),
    }
}

/// A slash and visible bytes, at most 1,024 bytes in all.
pub fn is_path(text: &[u8]) -> bool
    ensures { result ≡ is_path text.now }
{
    match text {
        [b'/', rest @ ..] => rest.len() < MAX_PATH_BYTES && all_visible(rest),
        _ => false,
    }
}

/// Each byte is visible: from `!` to `~`.
fn all_visible(text: &[u8]) -> bool
    ensures { result ≡ list_all is_visible text.now }
{
    text.iter().all(|byte| *byte >= b'!' && *byte <= b'~')
}
