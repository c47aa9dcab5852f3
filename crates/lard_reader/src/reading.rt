//! One batch of verdicts.

ghost use Rattle.std.specs.Prelude.{◌≡◌, ◌≤◌, length, IfOk};
ghost use Rattle.lard_reader.specs.Batches.{batch_of, bytes_used};

use lard_base::NoMemory;
use lard_block::{Found, cut};
use lard_request::{Code, Verdict, Verdicts, judge};
use std::alloc::Global;

/// The most verdicts of a batch.
const MOST_VERDICTS: usize = 8;

/// What was read of some bytes.
#[derive(Debug, Drop)]
pub struct Reading {
    /// The verdicts on the blocks, in order, at most eight. Only the last of them may close the connection.
    pub verdicts: Verdicts,
    /// How many bytes at the front they use.
    pub used: usize,
}

/// The next verdicts on these bytes, at most eight, up to and with the first that closes the connection
/// (RFC 9112, 9.3.2 and 9.6). They use the bytes of their blocks and of the pairs CR LF that are skipped before them,
/// and, where fewer than eight were found and none closes, the pairs before the head that is not whole yet. A head that
/// is too long uses all bytes. `NoMemory` where memory runs out.
pub fn batch(alloc: Global, unread: &[u8]) -> Result<Reading, NoMemory>
    ensures verdicts { IfOk result (λ reading. reading.verdicts ≡ batch_of 8 unread.now) }
    ensures used { IfOk result (λ reading. reading.used ≡ bytes_used 8 unread.now) }
    ensures within { IfOk result (λ reading. reading.used ≤ length unread.now) }
{
    let mut verdicts = Verdicts::new(alloc);
    let mut used = 0;
    for _turn in 0..MOST_VERDICTS {
        let rest = &unread[used..];
        match cut(rest) {
            Found::Block { skip, len } => {
                let verdict = judge(alloc, &rest[skip..skip + len])?;
                let last = verdict.closes();
                verdicts.push(verdict)?;
                used += skip + len;
                if last {
                    return Ok(Reading { verdicts, used });
                }
            }
            Found::More { skip } => {
                used += skip;
                return Ok(Reading { verdicts, used });
            }
            Found::TooLong { skip: _ } => {
                verdicts.push(Verdict::Fault(Code::FieldsTooLarge))?;
                let used = unread.len();
                return Ok(Reading { verdicts, used });
            }
        }
    }
    Ok(Reading { verdicts, used })
}
