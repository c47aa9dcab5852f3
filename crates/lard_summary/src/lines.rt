//! The four lines.

ghost use Rattle.std.specs.Prelude.{◌≡◌, ◌++◌, IfOk, OnOk, codes, decimal};
ghost use Rattle.lard_summary.specs.Lines.{end_word, summary};

use crate::counts::count;
use itoa::Buffer;
use lard_base::{Bytes, NoMemory};
use lard_journal::Rec;
use std::alloc::Global;

/// The four lines of a run of the generated schedule of this seed and of so many clients, which had this journal.
/// `NoMemory` where memory runs out.
#[tactic(auto, unfolding(crate::specs::Lines::summary))]
pub fn summary(alloc: Global, seed: u64, clients: u32, recs: &[Rec]) -> Result<Bytes, NoMemory>
    ensures { IfOk result (λ text. text ≡ summary seed clients recs.now) }
{
    let counts = count(recs);
    let mut text = Vec::new(alloc);
    push_count(&mut text, b"seed ", u128::from(seed))?;
    push_count(&mut text, b" clients ", u128::from(clients))?;
    end_line(&mut text)?;
    push_count(&mut text, b"requests ", u128::from(counts.requests))?;
    end_line(&mut text)?;
    push_count(&mut text, b"accepted ", counts.accepted)?;
    push_count(&mut text, b" packets ", u128::from(counts.packets))?;
    push_count(&mut text, b" records ", u128::from(counts.records))?;
    end_line(&mut text)?;
    text.extend_from_slice(end_word(recs))?;
    end_line(&mut text)?;
    Ok(Bytes::from_vec(text))
}

/// Appends words and a number.
fn push_count(text: &mut Vec<u8>, words: &[u8], n: u128) -> Result<(), NoMemory>
    ensures { OnOk result (text.new.items ≡ text.old.items ++ words.now ++ decimal n) }
{
    let mut digits = Buffer::new();
    text.extend_from_slice(words)?;
    text.extend_from_slice(digits.format(n).as_bytes())?;
    Ok(())
}

/// Appends a line feed.
fn end_line(text: &mut Vec<u8>) -> Result<(), NoMemory>
    ensures { OnOk result (text.new.items ≡ text.old.items ++ codes "\n") }
{
    text.push(b'\n')?;
    Ok(())
}

/// Whether the run ended by a settle behind which nothing was left.
fn end_word(recs: &[Rec]) -> &'static [u8]
    ensures { result.now ≡ end_word recs.now }
{
    match recs.last() {
        Some(Rec::Settled(_)) => b"settled",
        _ => b"open",
    }
}
