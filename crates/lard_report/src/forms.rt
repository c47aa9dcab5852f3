//! What stands behind the first word of a record, kind by kind.

ghost use Rattle.std.specs.Prelude.{◌≡◌};
ghost use Rattle.lard_schedule.specs.Events.{event_of};
ghost use Rattle.lard_schedule.specs.Words.{Judges, left_of};
ghost use Rattle.lard_report.specs.Records.{report_accepted, report_armed, report_assigned, report_cleared, report_clock, report_closed, report_gave, report_hit, report_inner, report_numbered, report_opened, report_queued, report_read, record_after, report_reset, report_sent, report_served, report_took, report_unsettled, report_wrote};

use crate::kinds::Kind;
use crate::parts::{
    DiskJob, choice_alone, choice_in, client_and_bytes, job, node_place_in, packet,
    place_client_number, place_client_timer, request_path, response, two_numbers,
};
use lard_base::{Epoch, Event, Millis, Path};
use lard_journal::Rec;
use lard_schedule::events::{client_alone, number_alone, place_in};
use lard_schedule::numbers::{client, conn, node_in, number, number_to};
use lard_schedule::words::{Words, end, is, next};
use lard_schedule::{LineFault, read_event};
use lard_shared::Shared;
use std::alloc::Global;

/// What comes after a record's first word.
pub fn record_after(alloc: Global, kind: Kind, words: Words<'_>) -> Result<Rec, LineFault>
    ensures { Judges result (record_after kind (left_of words.entry)) }
{
    match kind {
        Kind::Event => return numbered(alloc, words),
        Kind::Inner => return inner(alloc, words),
        Kind::Opened => return opened(words).ok_or(LineFault::Syntax),
        Kind::Wrote => return wrote(alloc, words),
        Kind::Sent => return sent(alloc, words),
        Kind::Got => return Ok(Rec::Got(number_alone(words).ok_or(LineFault::Syntax)?)),
        Kind::Lost => return Ok(Rec::Lost(number_alone(words).ok_or(LineFault::Syntax)?)),
        Kind::Accepted => return accepted(alloc, words),
        Kind::Eof => return Ok(Rec::Eof(client_alone(words).ok_or(LineFault::Syntax)?)),
        Kind::Took => return took(words).ok_or(LineFault::Syntax),
        Kind::Gave => return gave(words).ok_or(LineFault::Syntax),
        Kind::Waits => return Ok(Rec::Waits(client_alone(words).ok_or(LineFault::Syntax)?)),
        Kind::Admitted => return Ok(Rec::Admitted(client_alone(words).ok_or(LineFault::Syntax)?)),
        Kind::Released => return Ok(Rec::Released(client_alone(words).ok_or(LineFault::Syntax)?)),
        Kind::Assigned => return assigned(alloc, words),
        Kind::BatchOver => return Ok(Rec::BatchOver(client_alone(words).ok_or(LineFault::Syntax)?)),
        Kind::Served => return served(words).ok_or(LineFault::Syntax),
        Kind::Hit => return hit(alloc, words),
        Kind::Queued => return queued(alloc, words),
        Kind::Read => return read(alloc, words),
        Kind::Closed => return closed(words).ok_or(LineFault::Syntax),
        Kind::Armed => return armed(words).ok_or(LineFault::Syntax),
        Kind::Cleared => return cleared(words).ok_or(LineFault::Syntax),
        Kind::Reset => return reset(words).ok_or(LineFault::Syntax),
        Kind::Aborted => return Ok(Rec::Aborted(client_alone(words).ok_or(LineFault::Syntax)?)),
        Kind::Injected => return Ok(Rec::Injected(client_alone(words).ok_or(LineFault::Syntax)?)),
        Kind::Clock => return clock(words).ok_or(LineFault::Syntax),
        Kind::Settled => return Ok(Rec::Settled(number_alone(words).ok_or(LineFault::Syntax)?)),
        Kind::Unsettled => return unsettled(words).ok_or(LineFault::Syntax),
    }
}

/// An event of the schedule, with its number.
#[tactic(auto, unfolding(crate::specs::Records::report_numbered))]
fn numbered(alloc: Global, words: Words<'_>) -> Result<Rec, LineFault>
    ensures { Judges result (report_numbered (left_of words.entry)) }
{
    let (i, words) = number_to(words, u64::MAX).ok_or(LineFault::Syntax)?;
    let event = event(alloc, words)?;
    Ok(Rec::Event { i, event })
}

/// An inner step.
fn inner(alloc: Global, words: Words<'_>) -> Result<Rec, LineFault>
    ensures { Judges result (report_inner (left_of words.entry)) }
{
    let event = event(alloc, words)?;
    Ok(Rec::Inner(event))
}

/// An event of the schedule, as the rest of the line.
#[tactic(auto, unfolding(lard_schedule::specs::Events::event_of))]
fn event(alloc: Global, words: Words<'_>) -> Result<Event, LineFault>
    ensures { Judges result (event_of (left_of words.entry)) }
{
    match words.rest {
        Some(line) => return read_event(alloc, line),
        None => return Err(LineFault::Syntax),
    }
}

/// What a client opened with.
#[tactic(auto, unfolding(crate::specs::Records::report_opened))]
fn opened(words: Words<'_>) -> Option<Rec>
    ensures { result ≡ report_opened (left_of words.entry) }
{
    let (c, words) = client(words)?;
    let (isn, words) = number(words)?;
    let (iss, words) = number(words)?;
    let (wnd, words) = number(words)?;
    let (mss, words) = number(words)?;
    end(words)?;
    let c = conn(c);
    Some(Rec::Opened {
        c,
        isn,
        iss,
        wnd,
        mss,
    })
}

/// What a client wrote.
fn wrote(alloc: Global, words: Words<'_>) -> Result<Rec, LineFault>
    ensures { Judges result (report_wrote (left_of words.entry)) }
{
    let (c, bytes) = client_and_bytes(alloc, words)?;
    Ok(Rec::Wrote { c, bytes })
}

/// What a client accepted.
fn accepted(alloc: Global, words: Words<'_>) -> Result<Rec, LineFault>
    ensures { Judges result (report_accepted (left_of words.entry)) }
{
    let (c, bytes) = client_and_bytes(alloc, words)?;
    let bytes = Shared::from_slice(alloc, bytes.as_slice())?;
    Ok(Rec::Accepted { c, bytes })
}

/// A packet, with the places that it goes from and to.
#[tactic(auto, unfolding(crate::specs::Records::report_sent))]
fn sent(alloc: Global, words: Words<'_>) -> Result<Rec, LineFault>
    ensures { Judges result (report_sent (left_of words.entry)) }
{
    let (k, words) = number(words).ok_or(LineFault::Syntax)?;
    let (from, to, bytes) = packet(alloc, words)?;
    Ok(Rec::Sent { k, from, to, bytes })
}

/// A place began to own a connection.
fn took(words: Words<'_>) -> Option<Rec>
    ensures { result ≡ report_took (left_of words.entry) }
{
    let (place, c, epoch) = place_client_number(words, u64::from(u16::MAX))?;
    let epoch = Epoch(epoch as u16);
    Some(Rec::Took { place, c, epoch })
}

/// A place ended to own a connection.
fn gave(words: Words<'_>) -> Option<Rec>
    ensures { result ≡ report_gave (left_of words.entry) }
{
    let (place, c, epoch) = place_client_number(words, u64::from(u16::MAX))?;
    let epoch = Epoch(epoch as u16);
    Some(Rec::Gave { place, c, epoch })
}

/// A choice of a node: a first one is read on as such, every other as a later one.
#[tactic(auto, unfolding(crate::specs::Records::report_assigned, crate::specs::Parts::choice_then, lard_schedule::specs::Words::count_then))]
fn assigned(alloc: Global, words: Words<'_>) -> Result<Rec, LineFault>
    ensures { Judges result (report_assigned (left_of words.entry)) }
{
    let (c, words) = client(words).ok_or(LineFault::Syntax)?;
    let (r, words) = number(words).ok_or(LineFault::Syntax)?;
    let (which, words) = next(words).ok_or(LineFault::Syntax)?;
    let (text, words) = request_path(words).ok_or(LineFault::Syntax)?;
    let (word, words) = next(words).ok_or(LineFault::Syntax)?;
    let n = node_in(word).ok_or(LineFault::Syntax)?;
    let (word, words) = next(words).ok_or(LineFault::Syntax)?;
    let add = choice_in(word).ok_or(LineFault::Syntax)?;
    let path = Path::from_slice(alloc, text)?;
    let c = conn(c);
    if is(which, "first") {
        let remove = choice_alone(words).ok_or(LineFault::Syntax)?;
        return Ok(Rec::AssignedFirst {
            c,
            r,
            path,
            n,
            add,
            remove,
        });
    }
    let (size, queue) = two_numbers(words, u64::from(u32::MAX)).ok_or(LineFault::Syntax)?;
    Ok(Rec::AssignedLater {
        c,
        r,
        path,
        n,
        add,
        size,
        queue: queue as u32,
    })
}

/// A response that was queued.
#[tactic(auto, unfolding(crate::specs::Records::report_served, crate::specs::Parts::place_then))]
fn served(words: Words<'_>) -> Option<Rec>
    ensures { result ≡ report_served (left_of words.entry) }
{
    let (word, words) = next(words)?;
    let place = place_in(word)?;
    let (c, words) = client(words)?;
    let (r, words) = number(words)?;
    let (code, length, via) = response(words)?;
    let c = conn(c);
    Some(Rec::Served {
        place,
        c,
        r,
        code,
        length,
        via,
    })
}

/// A path in a node's cache.
#[tactic(auto, unfolding(crate::specs::Records::report_hit, crate::specs::Parts::node_then))]
fn hit(alloc: Global, words: Words<'_>) -> Result<Rec, LineFault>
    ensures { Judges result (report_hit (left_of words.entry)) }
{
    let (word, words) = next(words).ok_or(LineFault::Syntax)?;
    let n = node_place_in(word).ok_or(LineFault::Syntax)?;
    let (text, words) = request_path(words).ok_or(LineFault::Syntax)?;
    end(words).ok_or(LineFault::Syntax)?;
    let path = Path::from_slice(alloc, text)?;
    Ok(Rec::Hit { n, path })
}

/// A job that was queued.
fn queued(alloc: Global, words: Words<'_>) -> Result<Rec, LineFault>
    ensures { Judges result (report_queued (left_of words.entry)) }
{
    let DiskJob { n, m, c, r, path } = job(alloc, words)?;
    Ok(Rec::Queued { n, m, c, r, path })
}

/// A job that was completed.
fn read(alloc: Global, words: Words<'_>) -> Result<Rec, LineFault>
    ensures { Judges result (report_read (left_of words.entry)) }
{
    let DiskJob { n, m, c, r, path } = job(alloc, words)?;
    Ok(Rec::Read { n, m, c, r, path })
}

/// A node that was closed.
#[tactic(auto, unfolding(crate::specs::Records::report_closed, crate::specs::Parts::node_then))]
fn closed(words: Words<'_>) -> Option<Rec>
    ensures { result ≡ report_closed (left_of words.entry) }
{
    let (word, words) = next(words)?;
    let n = node_place_in(word)?;
    end(words)?;
    Some(Rec::Closed(n))
}

/// A timer that was armed.
fn armed(words: Words<'_>) -> Option<Rec>
    ensures { result ≡ report_armed (left_of words.entry) }
{
    let (place, c, kind) = place_client_timer(words)?;
    Some(Rec::Armed { place, c, kind })
}

/// A timer that was cleared.
fn cleared(words: Words<'_>) -> Option<Rec>
    ensures { result ≡ report_cleared (left_of words.entry) }
{
    let (place, c, kind) = place_client_timer(words)?;
    Some(Rec::Cleared { place, c, kind })
}

/// A reset at the stream limit.
fn reset(words: Words<'_>) -> Option<Rec>
    ensures { result ≡ report_reset (left_of words.entry) }
{
    let (place, c, count) = place_client_number(words, u64::from(u32::MAX))?;
    let count = count as u32;
    Some(Rec::Reset { place, c, count })
}

/// The new time.
#[tactic(auto, unfolding(crate::specs::Records::report_clock))]
fn clock(words: Words<'_>) -> Option<Rec>
    ensures { result ≡ report_clock (left_of words.entry) }
{
    let (time, words) = number_to(words, u64::MAX)?;
    end(words)?;
    Some(Rec::Clock(Millis(time)))
}

/// The end of a settle with something left.
fn unsettled(words: Words<'_>) -> Option<Rec>
    ensures { result ≡ report_unsettled (left_of words.entry) }
{
    let (rounds, left) = two_numbers(words, u64::MAX)?;
    Some(Rec::Unsettled { rounds, left })
}
