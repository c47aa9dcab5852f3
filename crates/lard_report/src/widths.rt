//! What the types of a record's fields say of it. Nothing here computes: each function reads a value, and says of it what its type
//! says.

ghost use Rattle.std.specs.Prelude.{◌<◌, ◌≤◌, ◌^◌, length};
ghost use Rattle.lard_schedule.specs.Events.{IsPlace};
ghost use Rattle.lard_report.specs.Formed.{HasWidths, HaveWidths, IsEventFormed};
ghost use Rattle.lard_report.specs.Readable.{IsChoice, IsConn, IsEvent, IsReadableNode, IsSomeBytes, IsVia};

use lard_base::{Bytes, ConnId, Event, NodeId, Place, Via};
use lard_journal::Rec;
use lard_shared::Shared;

/// A line can stand for each of these records whose paths are ones of requests, and whose bytes are at least one: its numbers,
/// places and bytes have the ranges of their types.
pub fn have_widths(recs: &[Rec])
    ensures { HaveWidths recs.now }
{
    for rec in recs {
        has_width(rec);
    }
}

/// A line can stand for this record, where its form is right.
fn has_width(rec: &Rec)
    ensures { HasWidths rec.now }
{
    match rec {
        Rec::Event { i, event } => {
            long(*i);
            of_event(event);
        }
        Rec::Inner(event) => of_event(event),
        Rec::Opened {
            c,
            isn,
            iss,
            wnd,
            mss,
        } => {
            conn(*c);
            word(*isn);
            word(*iss);
            word(*wnd);
            word(*mss);
        }
        Rec::Wrote { c, bytes } => {
            conn(*c);
            some(bytes);
        }
        Rec::Sent { k, from, to, bytes } => {
            word(*k);
            place(*from);
            place(*to);
            some_shared(bytes);
        }
        Rec::Got(k) => word(*k),
        Rec::Lost(k) => word(*k),
        Rec::Accepted { c, bytes } => {
            conn(*c);
            some_shared(bytes);
        }
        Rec::Eof(c) => conn(*c),
        Rec::Took {
            place: at,
            c,
            epoch,
        } => {
            place(*at);
            conn(*c);
            half(epoch.0);
        }
        Rec::Gave {
            place: at,
            c,
            epoch,
        } => {
            place(*at);
            conn(*c);
            half(epoch.0);
        }
        Rec::Waits(c) => conn(*c),
        Rec::Admitted(c) => conn(*c),
        Rec::Released(c) => conn(*c),
        Rec::AssignedFirst {
            c,
            r,
            path: _,
            n,
            add,
            remove,
        } => {
            conn(*c);
            word(*r);
            node(*n);
            choice(*add);
            choice(*remove);
        }
        Rec::AssignedLater {
            c,
            r,
            path: _,
            n,
            add,
            size,
            queue,
        } => {
            conn(*c);
            word(*r);
            node(*n);
            choice(*add);
            word(*size);
            word(*queue);
        }
        Rec::BatchOver(c) => conn(*c),
        Rec::Served {
            place: at,
            c,
            r,
            code,
            length,
            via: by,
        } => {
            place(*at);
            conn(*c);
            word(*r);
            half(*code);
            word(*length);
            via(*by);
        }
        Rec::Hit { n, path: _ } => node(*n),
        Rec::Queued {
            n,
            m,
            c,
            r,
            path: _,
        } => {
            node(*n);
            node(*m);
            conn(*c);
            word(*r);
        }
        Rec::Read {
            n,
            m,
            c,
            r,
            path: _,
        } => {
            node(*n);
            node(*m);
            conn(*c);
            word(*r);
        }
        Rec::Closed(n) => node(*n),
        Rec::Armed {
            place: at,
            c,
            kind: _,
        } => {
            place(*at);
            conn(*c);
        }
        Rec::Cleared {
            place: at,
            c,
            kind: _,
        } => {
            place(*at);
            conn(*c);
        }
        Rec::Reset {
            place: at,
            c,
            count,
        } => {
            place(*at);
            conn(*c);
            word(*count);
        }
        Rec::Aborted(c) => conn(*c),
        Rec::Injected(c) => conn(*c),
        Rec::Clock(time) => long(time.0),
        Rec::Settled(rounds) => word(*rounds),
        Rec::Unsettled { rounds, left } => {
            word(*rounds);
            long(*left);
        }
    }
}

/// A line of a schedule can stand for this event, where its form is right.
fn of_event(event: &Event)
    ensures { IsEventFormed event.now → IsEvent event.now }
{
    match event {
        Event::Open {
            c,
            isn,
            iss,
            wnd: _,
            mss: _,
        } => {
            conn(*c);
            word(*isn);
            word(*iss);
        }
        Event::Get { c, path: _ } => conn(*c),
        Event::Write { c, bytes } => {
            conn(*c);
            some(bytes);
        }
        Event::Shut(c) => conn(*c),
        Event::Abort(c) => conn(*c),
        Event::Hold(c) => conn(*c),
        Event::Take(c) => conn(*c),
        Event::Deliver(k) => word(*k),
        Event::Lose(k) => word(*k),
        Event::Timer { place: at, c } => {
            place(*at);
            conn(*c);
        }
        Event::Disk { n, j } => {
            word(*n);
            word(*j);
        }
        Event::Drain(n) => word(*n),
        Event::Clock(ms) => word(*ms),
        Event::Settle(rounds) => word(*rounds),
        Event::Inject { c, bytes } => {
            conn(*c);
            some(bytes);
        }
    }
}

/// A number of 16 bits.
fn half(_n: u16)
    ensures { _n < 2 ^ 16 }
{}

/// A number of 32 bits.
fn word(_n: u32)
    ensures { _n < 2 ^ 32 }
{}

/// A number of 64 bits.
fn long(_n: u64)
    ensures { _n < 2 ^ 64 }
{}

/// The number of a connection.
fn conn(c: ConnId)
    ensures { IsConn c }
{
    let _number = c.number();
}

/// The number of a node.
fn node(n: NodeId)
    ensures { IsReadableNode n }
{
    let _number = n.number();
}

/// A node or none.
fn choice(n: Option<NodeId>)
    ensures { IsChoice n }
{
    match n {
        Some(n) => node(n),
        None => {}
    }
}

/// A place.
fn place(at: Place)
    ensures { IsPlace at }
{
    match at {
        Place::Front => {}
        Place::Node(n) => node(n),
        Place::Client(c) => conn(c),
    }
}

/// Where a content came from.
fn via(by: Via)
    ensures { IsVia by }
{
    match by {
        Via::Own => {}
        Via::Cache => {}
        Via::Disk => {}
        Via::Node(n) => node(n),
    }
}

/// Bytes.
fn some(bytes: &Bytes)
    ensures { 1 ≤ length bytes.now → IsSomeBytes bytes.now }
{
    of_slice(bytes.as_slice());
}

/// Bytes that are shared.
fn some_shared(bytes: &Shared)
    ensures { 1 ≤ length bytes.now → IsSomeBytes bytes.now }
{
    of_slice(bytes.as_slice());
}

/// Bytes, as they lie.
fn of_slice(bytes: &[u8])
    ensures { 1 ≤ length bytes.now → IsSomeBytes bytes.now }
{}
