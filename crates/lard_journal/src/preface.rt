//! The lines of a report that stand before those of the records.

ghost use Rattle.std.specs.Prelude.{◌≡◌, [], ◌∷◌, IfOk, OnOk, decimal};
ghost use Rattle.std.specs.List.{fold};
ghost use Rattle.lard_base.specs.Spelling.{spaced, key_word};
ghost use Rattle.lard_base.specs.declared.config.Key.TheVariants.{Nodes, Low, High, Age, Idle, Over, Miss, Cache, Stream};
ghost use Rattle.lard_journal.specs.Report.{heading_line, file_text};

use crate::text::{bytes, number, word};
use itoa::Integer;
use lard_base::{Bytes, Config, NoMemory};
use std::alloc::Global;

/// The heading: the version of the format, and the numbers of the configuration. `NoMemory` where memory runs out.
#[tactic(auto, unfolding(crate::specs::Report::heading_line))]
pub fn heading(alloc: Global, config: &Config) -> Result<Bytes, NoMemory>
    ensures { IfOk result (λ text. text ≡ heading_line config.now) }
{
    let mut text = Vec::new(alloc);
    bytes(&mut text, b"report 1")?;
    policy(&mut text, config)?;
    costs(&mut text, config)?;
    limits(&mut text, config)?;
    bytes(&mut text, b"\n")?;
    Ok(Bytes::from_vec(text))
}

/// The line of a file, of its path and its length in bytes. `NoMemory` where memory runs out.
pub fn file_line(alloc: Global, path: &[u8], length: u64) -> Result<Bytes, NoMemory>
    ensures { IfOk result (λ text. text ≡ file_text (path.now, length)) }
{
    let mut text = Vec::from_slice(alloc, b"file")?;
    word(&mut text, path)?;
    number(&mut text, length)?;
    bytes(&mut text, b"\n")?;
    Ok(Bytes::from_vec(text))
}

/// The number of nodes, and the thresholds of the policy.
fn policy(out: &mut Vec<u8>, config: &Config) -> Result<(), NoMemory>
    ensures { OnOk result (out.new.items ≡ fold spaced out.old.items
        (key_word Nodes ∷ decimal config.now.nodes ∷ key_word Low ∷ decimal config.now.low
        ∷ key_word High ∷ decimal config.now.high ∷ key_word Age ∷ decimal config.now.age ∷ [])) }
{
    key(out, b"nodes", config.nodes)?;
    key(out, b"low", config.low)?;
    key(out, b"high", config.high)?;
    key(out, b"age", config.age)
}

/// The costs of a later request.
fn costs(out: &mut Vec<u8>, config: &Config) -> Result<(), NoMemory>
    ensures { OnOk result (out.new.items ≡ fold spaced out.old.items
        (key_word Idle ∷ decimal config.now.idle ∷ key_word Over ∷ decimal config.now.over
        ∷ key_word Miss ∷ decimal config.now.miss ∷ [])) }
{
    key(out, b"idle", config.idle)?;
    key(out, b"over", config.over)?;
    key(out, b"miss", config.miss)
}

/// The room of a cache, and the stream limit.
fn limits(out: &mut Vec<u8>, config: &Config) -> Result<(), NoMemory>
    ensures { OnOk result (out.new.items ≡ fold spaced out.old.items
        (key_word Cache ∷ decimal config.now.cache ∷ key_word Stream ∷ decimal config.now.stream ∷ [])) }
{
    key(out, b"cache", config.cache)?;
    key(out, b"stream", config.stream)
}

/// The name of a key and its number.
fn key<I: Integer>(out: &mut Vec<u8>, name: &[u8], value: I) -> Result<(), NoMemory>
    ensures { OnOk result (out.new.items ≡ fold spaced out.old.items (name.now ∷ I.text value ∷ [])) }
{
    word(out, name)?;
    number(out, value)
}
