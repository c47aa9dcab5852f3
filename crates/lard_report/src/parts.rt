//! What the words of a record name: places, nodes, choices, where a content came from, timers, and what stands together.

ghost use Rattle.std.specs.Prelude.{◌≡◌, ◌≤◌, ◌-◌, IfSome};
ghost use Rattle.lard_schedule.specs.Words.{Finds, Judges, left_of, seen_word};
ghost use Rattle.lard_report.specs.Parts.{choice_alone, choice_of, client_and_bytes, far_via_of, job_of, report_node_at, node_place_of, packet_words, place_client_number, place_client_timer, request_words, request_path_then, response_of, timer_kind_of, two_numbers, via_of};

use lard_base::{Bytes, ConnId, NodeId, Path, Place, TimerKind, Via};
use lard_schedule::LineFault;
use lard_schedule::events::{client_and_word, is_path, place_in, some_bytes};
use lard_schedule::numbers::{client, conn, node_in, number, number_to};
use lard_schedule::words::{Words, end, is, next};
use lard_shared::Shared;
use std::alloc::Global;

/// A job of a disk: its node, the node that asks, the connection and the request that it is for, and the path.
#[derive(Debug, Drop)]
pub struct DiskJob {
    pub n: NodeId,
    pub m: NodeId,
    pub c: ConnId,
    pub r: u32,
    pub path: Path,
}

/// The node of a place.
fn node_at(place: Place) -> Option<NodeId>
    ensures { result ≡ report_node_at place }
{
    match place {
        Place::Front => None,
        Place::Node(n) => Some(n),
        Place::Client(_) => None,
    }
}

/// A node, written as a place.
pub fn node_place_in(word: &[u8]) -> Option<NodeId>
    ensures { result ≡ node_place_of word.now }
{
    let place = place_in(word)?;
    node_at(place)
}

/// The number of a node, or `-` where there is none.
pub fn choice_in(word: &[u8]) -> Option<Option<NodeId>>
    ensures { result ≡ choice_of word.now }
{
    if is(word, "-") {
        return Some(None);
    }
    let n = node_in(word)?;
    Some(Some(n))
}

/// Where a content came from: `own`, `cache`, `disk`, or `node` and a node's number.
#[tactic(auto, unfolding(crate::specs::Parts::via_of))]
fn via_in(word: &[u8]) -> Option<Via>
    ensures { result ≡ via_of word.now }
{
    if is(word, "own") {
        return Some(Via::Own);
    }
    if is(word, "cache") {
        return Some(Via::Cache);
    }
    if is(word, "disk") {
        return Some(Via::Disk);
    }
    far_via_in(word)
}

/// A node's number behind four letters. That they are `node` is seen where the line is compared.
fn far_via_in(word: &[u8]) -> Option<Via>
    ensures { result ≡ far_via_of word.now }
{
    match word {
        [_, _, _, _, number @ ..] => return Some(Via::Node(node_in(number)?)),
        _ => return None,
    }
}

/// The kind of a timer: `tcp`, `offer`, `ask`, `fetch`, `ended` or `give`.
#[tactic(auto, unfolding(crate::specs::Parts::timer_kind_of))]
fn timer_kind_in(word: &[u8]) -> Option<TimerKind>
    ensures { result ≡ timer_kind_of word.now }
{
    if is(word, "tcp") {
        return Some(TimerKind::Tcp);
    }
    if is(word, "offer") {
        return Some(TimerKind::Offer);
    }
    if is(word, "ask") {
        return Some(TimerKind::Ask);
    }
    if is(word, "fetch") {
        return Some(TimerKind::Fetch);
    }
    if is(word, "ended") {
        return Some(TimerKind::Ended);
    }
    if is(word, "give") {
        return Some(TimerKind::Give);
    }
    None
}

/// A path of a request, as the next word.
#[tactic(auto, unfolding(crate::specs::Parts::request_path_then))]
pub fn request_path(words: Words<'_>) -> Option<(&[u8], Words<'_>)>
    ensures { Finds seen_word result (request_path_then (left_of words.entry)) }
{
    let (word, rest) = next(words)?;
    if !is_path(word) {
        return None;
    }
    Some((word, rest))
}

/// A choice, and nothing more.
#[tactic(auto, unfolding(crate::specs::Parts::choice_alone, crate::specs::Parts::choice_then))]
pub fn choice_alone(words: Words<'_>) -> Option<Option<NodeId>>
    ensures { result ≡ choice_alone (left_of words.entry) }
{
    let (word, words) = next(words)?;
    let choice = choice_in(word)?;
    end(words)?;
    Some(choice)
}

/// Two numbers, the first below 2^32 and the second at most `most`, and nothing more.
#[tactic(auto, unfolding(crate::specs::Parts::two_numbers))]
pub fn two_numbers(words: Words<'_>, most: u64) -> Option<(u32, u64)>
    ensures found { result ≡ two_numbers most (left_of words.entry) }
    ensures within { IfSome result (λ found. found.1 ≤ most) }
{
    let (first, words) = number(words)?;
    let (second, words) = number_to(words, most)?;
    end(words)?;
    Some((first, second))
}

/// A client, and at least one byte in hexadecimal.
#[tactic(auto, unfolding(crate::specs::Parts::client_and_bytes))]
pub fn client_and_bytes(alloc: Global, words: Words<'_>) -> Result<(ConnId, Bytes), LineFault>
    ensures { Judges result (client_and_bytes (left_of words.entry)) }
{
    let (c, word) = client_and_word(words).ok_or(LineFault::Syntax)?;
    let bytes = some_bytes(alloc, word)?;
    Ok((conn(c), bytes))
}

/// A place, a client, and a number that is at most `most`, and nothing more.
#[tactic(auto, unfolding(crate::specs::Parts::place_client_number, crate::specs::Parts::place_then))]
pub fn place_client_number(words: Words<'_>, most: u64) -> Option<(Place, ConnId, u64)>
    ensures found { result ≡ place_client_number most (left_of words.entry) }
    ensures within { IfSome result (λ found. found.2 ≤ most) }
{
    let (word, words) = next(words)?;
    let place = place_in(word)?;
    let (c, words) = client(words)?;
    let (n, words) = number_to(words, most)?;
    end(words)?;
    Some((place, conn(c), n))
}

/// A place, a client, and the kind of a timer, and nothing more.
#[tactic(auto, unfolding(crate::specs::Parts::place_client_timer, crate::specs::Parts::place_then))]
pub fn place_client_timer(words: Words<'_>) -> Option<(Place, ConnId, TimerKind)>
    ensures { result ≡ place_client_timer (left_of words.entry) }
{
    let (word, words) = next(words)?;
    let place = place_in(word)?;
    let (c, words) = client(words)?;
    let (word, words) = next(words)?;
    let kind = timer_kind_in(word)?;
    end(words)?;
    Some((place, conn(c), kind))
}

/// The places that a packet goes from and to, and its bytes, and nothing more.
#[tactic(auto, unfolding(crate::specs::Parts::packet_words, crate::specs::Parts::place_then))]
pub fn packet(alloc: Global, words: Words<'_>) -> Result<(Place, Place, Shared), LineFault>
    ensures { Judges result (packet_words (left_of words.entry)) }
{
    let (word, words) = next(words).ok_or(LineFault::Syntax)?;
    let from = place_in(word).ok_or(LineFault::Syntax)?;
    let (word, words) = next(words).ok_or(LineFault::Syntax)?;
    let to = place_in(word).ok_or(LineFault::Syntax)?;
    let (word, words) = next(words).ok_or(LineFault::Syntax)?;
    let bytes = some_bytes(alloc, word)?;
    end(words).ok_or(LineFault::Syntax)?;
    let bytes = Shared::from_slice(alloc, bytes.as_slice())?;
    Ok((from, to, bytes))
}

/// A connection, the number of a request, and its path, and nothing more.
#[tactic(auto, unfolding(crate::specs::Parts::request_words))]
fn request(alloc: Global, words: Words<'_>) -> Result<(ConnId, u32, Path), LineFault>
    ensures { Judges result (request_words (left_of words.entry)) }
{
    let (c, words) = client(words).ok_or(LineFault::Syntax)?;
    let (r, words) = number(words).ok_or(LineFault::Syntax)?;
    let (text, words) = request_path(words).ok_or(LineFault::Syntax)?;
    end(words).ok_or(LineFault::Syntax)?;
    let path = Path::from_slice(alloc, text)?;
    Ok((conn(c), r, path))
}

/// A job of a disk, and nothing more.
#[tactic(auto, unfolding(crate::specs::Parts::job_of, crate::specs::Parts::node_then))]
pub fn job(alloc: Global, words: Words<'_>) -> Result<DiskJob, LineFault>
    ensures { Judges result (job_of (left_of words.entry)) }
{
    let (word, words) = next(words).ok_or(LineFault::Syntax)?;
    let n = node_place_in(word).ok_or(LineFault::Syntax)?;
    let (word, words) = next(words).ok_or(LineFault::Syntax)?;
    let m = node_place_in(word).ok_or(LineFault::Syntax)?;
    let (c, r, path) = request(alloc, words)?;
    Ok(DiskJob { n, m, c, r, path })
}

/// A response's code, its length in bytes, and where its content came from, and nothing more.
#[tactic(auto, unfolding(crate::specs::Parts::response_of))]
pub fn response(words: Words<'_>) -> Option<(u16, u32, Via)>
    ensures { result ≡ response_of (left_of words.entry) }
{
    let (code, words) = number_to(words, u64::from(u16::MAX))?;
    let (length, words) = number(words)?;
    let (word, words) = next(words)?;
    let via = via_in(word)?;
    end(words)?;
    Some((code as u16, length, via))
}
