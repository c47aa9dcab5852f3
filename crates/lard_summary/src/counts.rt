//! What is counted of a journal.

ghost use Rattle.std.specs.Prelude.{◌≡◌, ◌+◌, ◌*◌, ◌<◌, ◌≤◌, ◌^◌};
ghost use Rattle.lard_summary.specs.Counts.{summary_counted, counts_of};

use lard_journal::Rec;

/// How much of four kinds a journal tells of.
#[derive(Clone, Copy, Debug, PartialEq, Eq)]
pub struct Counts {
    /// The responses that were queued.
    pub requests: u64,
    /// The bytes that clients accepted.
    pub accepted: u128,
    /// The packets that were sent.
    pub packets: u64,
    /// The records.
    pub records: u64,
}

/// Counts the records of a journal.
pub fn count(recs: &[Rec]) -> Counts
    ensures { result ≡ counts_of recs.now }
{
    let mut counts = Counts {
        requests: 0,
        accepted: 0,
        packets: 0,
        records: 0,
    };
    for rec in recs {
        counts = counted(counts, rec);
    }
    counts
}

/// Counts one record more.
fn counted(counts: Counts, rec: &Rec) -> Counts
    requires records { counts.records + 1 < 2 ^ 64 }
    requires requests { counts.requests ≤ counts.records }
    requires packets { counts.packets ≤ counts.records }
    requires accepted { counts.accepted ≤ counts.records * 2 ^ 64 }
    ensures counted { result ≡ summary_counted counts rec.now }
    ensures requests { result.requests ≤ result.records }
    ensures packets { result.packets ≤ result.records }
    ensures accepted { result.accepted ≤ result.records * 2 ^ 64 }
{
    let mut more = counts;
    more.records += 1;
    match rec {
        Rec::Served { .. } => more.requests += 1,
        Rec::Accepted { bytes, .. } => more.accepted += bytes.len() as u128,
        Rec::Sent { .. } => more.packets += 1,
        _ => {}
    }
    more
}
