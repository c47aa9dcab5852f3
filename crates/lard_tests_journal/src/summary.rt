//! The lines of two short journals, counted by hand.

use crate::compare::same_bytes;
use lard_base::{ConnId, Place, Via};
use lard_journal::Rec;
use lard_shared::Shared;
use lard_summary::summary;
use std::alloc::Global;
use std::process::Abort;
use std::test::Fail;

/// A packet of two bytes, a response, and four bytes and one that the client accepts.
fn journal(alloc: Global) -> Result<Vec<Rec>, Fail> {
    let c = ConnId::new(1).ok_or("no connection has this number")?;
    let mut recs = Vec::new(alloc);
    recs.push(Rec::Sent {
        k: 1,
        from: Place::Front,
        to: Place::Client(c),
        bytes: Shared::from_slice(alloc, b"ab")?,
    })?;
    recs.push(Rec::Served {
        place: Place::Front,
        c,
        r: 1,
        code: 404,
        length: 45,
        via: Via::Own,
    })?;
    recs.push(Rec::Accepted {
        c,
        bytes: Shared::from_slice(alloc, b"HTTP")?,
    })?;
    recs.push(Rec::Accepted {
        c,
        bytes: Shared::from_slice(alloc, b"/")?,
    })?;
    Ok(recs)
}

/// Ends the test where the lines that tell of a journal are others.
fn tells(rt: &impl Abort, alloc: Global, seed: u64, clients: u32, recs: &[Rec], want: &str) {
    let lines = summary(alloc, seed, clients, recs)
        .ok()
        .expect(rt, "memory");
    same_bytes(rt, lines.as_slice(), want.as_bytes());
}

#[test]
fn a_journal_that_ends_by_settled(rt: HostRuntime) -> Result<(), Fail> {
    let mut recs = journal(rt.alloc())?;
    recs.push(Rec::Settled(3))?;
    let want =
        "seed 18446744073709551615 clients 2000\nrequests 1\naccepted 5 packets 1 records 5\nsettled\n";
    tells(&rt, rt.alloc(), u64::MAX, 2_000, recs.as_slice(), want);
    Ok(())
}

#[test]
fn a_journal_that_ends_otherwise(rt: HostRuntime) -> Result<(), Fail> {
    let mut recs = journal(rt.alloc())?;
    recs.push(Rec::Unsettled { rounds: 3, left: 1 })?;
    let want = "seed 0 clients 1\nrequests 1\naccepted 5 packets 1 records 5\nopen\n";
    tells(&rt, rt.alloc(), 0, 1, recs.as_slice(), want);
    let want = "seed 0 clients 1\nrequests 0\naccepted 0 packets 0 records 0\nopen\n";
    tells(&rt, rt.alloc(), 0, 1, &[], want);
    Ok(())
}
