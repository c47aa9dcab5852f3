//! A file, from its words.

ghost use Rattle.std.specs.Prelude.{◌≡◌, replicate, IfOk};
ghost use Rattle.std.specs.List.{list_all};
ghost use Rattle.lard_schedule.specs.Files.{byte_of, word_content, file_item, file_item_of, fill_of, is_file_path, is_no_question, path_and_word, path_then, byte_run};
ghost use Rattle.lard_schedule.specs.Words.{Finds, Judges, ended, left_of, seen_texts, seen_word};

use crate::events::{is_path, some_bytes};
use crate::item::{Item, LineFault};
use crate::numbers::number_to;
use crate::words::{Words, end, is, next};
use lard_base::limits::MAX_ALL_FILES_BYTES;
use lard_base::{Bytes, NoMemory, Path};
use std::alloc::Global;

/// A file, or `go` behind the last one.
#[tactic(auto, unfolding(crate::specs::Files::file_item))]
pub fn file_item(alloc: Global, words: Words<'_>) -> Result<Item, LineFault>
    ensures { Judges result (file_item (left_of words.entry)) }
{
    let (word, rest) = next(words).ok_or(LineFault::Syntax)?;
    if is(word, "file") {
        return file(alloc, rest);
    }
    if is(word, "fill") {
        return fill(alloc, rest);
    }
    if is(word, "go") {
        return go(rest);
    }
    Err(LineFault::Syntax)
}

fn go(words: Words<'_>) -> Result<Item, LineFault>
    ensures { Judges result (ended (left_of words.entry) Item.Go) }
{
    end(words).ok_or(LineFault::Syntax)?;
    Ok(Item::Go)
}

/// What comes after the word `file`: a path, and the content in hexadecimal, or `-` where there is none.
#[tactic(auto, unfolding(crate::specs::Files::file_item_of))]
fn file(alloc: Global, words: Words<'_>) -> Result<Item, LineFault>
    ensures { Judges result (file_item_of (left_of words.entry)) }
{
    let (path, word) = path_and_word(words).ok_or(LineFault::Syntax)?;
    let bytes = content(alloc, word)?;
    let path = Path::from_slice(alloc, path)?;
    Ok(Item::File { path, bytes })
}

/// What comes after the word `fill`: a path, how often a byte is repeated, and the byte.
#[tactic(auto, unfolding(crate::specs::Files::fill_of))]
fn fill(alloc: Global, words: Words<'_>) -> Result<Item, LineFault>
    ensures { Judges result (fill_of (left_of words.entry)) }
{
    let (path, words) = path_next(words).ok_or(LineFault::Syntax)?;
    let (n, byte) = run(words).ok_or(LineFault::Syntax)?;
    let bytes = repeated(alloc, byte, n)?;
    let path = Path::from_slice(alloc, path)?;
    Ok(Item::File { path, bytes })
}

/// A path and one word.
#[tactic(auto, unfolding(crate::specs::Files::path_and_word))]
fn path_and_word(words: Words<'_>) -> Option<(&[u8], &[u8])>
    ensures { Finds seen_texts result (path_and_word (left_of words.entry)) }
{
    let (path, words) = path_next(words)?;
    let (word, words) = next(words)?;
    end(words)?;
    Some((path, word))
}

/// How often a byte is repeated, at most as often as all files together may have bytes, and the byte.
#[tactic(auto, unfolding(crate::specs::Files::byte_run))]
fn run(words: Words<'_>) -> Option<(u64, u8)>
    ensures { result ≡ byte_run (left_of words.entry) }
{
    let (n, words) = number_to(words, MAX_ALL_FILES_BYTES as u64)?;
    let (word, words) = next(words)?;
    let byte = byte_in(word)?;
    end(words)?;
    Some((n, byte))
}

/// The path of a file, as the next word: no query may stand in it.
#[tactic(auto, unfolding(crate::specs::Files::path_then))]
pub fn path_next(words: Words<'_>) -> Option<(&[u8], Words<'_>)>
    ensures { Finds seen_word result (path_then (left_of words.entry)) }
{
    let (word, rest) = next(words)?;
    if !is_file_path(word) {
        return None;
    }
    Some((word, rest))
}

/// A file's bytes: hexadecimal digits, or `-`.
fn content(alloc: Global, word: &[u8]) -> Result<Bytes, LineFault>
    ensures { Judges result (word_content word.now) }
{
    if is(word, "-") {
        return Ok(Bytes::from_vec(Vec::new(alloc)));
    }
    some_bytes(alloc, word)
}

/// One byte, in two hexadecimal digits.
fn byte_in(word: &[u8]) -> Option<u8>
    ensures { result ≡ byte_of word.now }
{
    let mut byte = [0];
    match hex::decode_to_slice(word, &mut byte) {
        Ok(()) => return Some(byte[0]),
        Err(_) => return None,
    }
}

/// The byte, so many times.
fn repeated(alloc: Global, byte: u8, n: u64) -> Result<Bytes, NoMemory>
    ensures { IfOk result (λ bytes. bytes ≡ replicate n byte) }
{
    let items = vec![in alloc; byte; n as usize]?;
    Ok(Bytes::from_vec(items))
}

/// A path without a question mark.
fn is_file_path(text: &[u8]) -> bool
    ensures { result ≡ is_file_path text.now }
{
    is_path(text) && has_no_question(text)
}

fn has_no_question(text: &[u8]) -> bool
    ensures { result ≡ list_all is_no_question text.now }
{
    text.iter().all(|byte| *byte != b'?')
}
