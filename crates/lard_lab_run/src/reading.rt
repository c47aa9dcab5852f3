//! An item, from the words of its line.

ghost use Rattle.std.specs.Prelude.{◌≡◌, IfOk, OnErr};
ghost use Rattle.lard_schedule.specs.Reader.{key_among};
ghost use Rattle.lard_schedule.specs.Words.{Finds, Judges, ended, left_of};
ghost use Rattle.lard_lab_run.specs.Items.{HasLabRange, lab_reader_after, event_item, lab_event_of, lab_file_item, lab_file_of, lab_header_of, lab_item_of, lab_key_of, req_of, seen_text, lab_set_of, lab_setting_of, lab_value_of, word_alone};

use crate::item::Item;
use lard_base::limits::MAX_FILE_BYTES;
use lard_base::{Key, Path};
use lard_lab::LabEvent;
use lard_schedule::events::{is_path, number_alone};
use lard_schedule::files::path_next;
use lard_schedule::numbers::number_to;
use lard_schedule::words::{Words, end, is, next, words_of};
use lard_schedule::{LineFault, Reader, Stage, key_word};
use std::alloc::Global;

/// The keys that a trace may set.
const KEYS: [Key; 5] = [Key::Nodes, Key::Low, Key::High, Key::Age, Key::Cache];

/// Reads the next line, given without its line feed, and answers what it stands for. `Syntax` comes where the line is none of
/// a trace in its place, and `NoMemory` where memory runs out; the reader is then as before.
pub fn feed_line(reader: &mut Reader, alloc: Global, line: &[u8]) -> Result<Item, LineFault>
    ensures judged { Judges result (lab_item_of reader.old line.now) }
    ensures range { IfOk result HasLabRange }
    ensures ok { IfOk result (λ item. reader.new ≡ lab_reader_after reader.old item) }
    ensures err { OnErr result (reader.new ≡ reader.old) }
{
    let item = item(reader, alloc, line)?;
    pass(reader, &item);
    Ok(item)
}

/// What the line stands for in its place.
fn item(reader: &Reader, alloc: Global, line: &[u8]) -> Result<Item, LineFault>
    ensures { Judges result (lab_item_of reader.now line.now) }
{
    match reader.stage {
        Stage::Start => return header(line),
        Stage::Settings => return setting(reader, alloc, words_of(line)),
        Stage::Files => return file_item(alloc, words_of(line)),
        Stage::Running => return event_item(alloc, words_of(line)),
    }
}

/// Goes on behind a line that stood for the item.
fn pass(reader: &mut Reader, item: &Item)
    ensures { reader.new ≡ lab_reader_after reader.old item.now }
{
    match item {
        Item::Header => reader.stage = Stage::Settings,
        Item::Set(key, _) => reader.keys.add(*key),
        Item::File { .. } => reader.stage = Stage::Files,
        Item::Go => reader.stage = Stage::Running,
        Item::Event(_) => (),
    }
}

fn header(line: &[u8]) -> Result<Item, LineFault>
    ensures { Judges result (lab_header_of line.now) }
{
    if is(line, "lab 1") {
        return Ok(Item::Header);
    }
    Err(LineFault::Syntax)
}

/// A number of the configuration, a file, or `go`.
#[tactic(auto, unfolding(crate::specs::Items::lab_setting_of))]
fn setting(reader: &Reader, alloc: Global, words: Words<'_>) -> Result<Item, LineFault>
    ensures { Judges result (lab_setting_of reader.now.keys (left_of words.entry)) }
{
    let (word, rest) = next(words).ok_or(LineFault::Syntax)?;
    match key_in(word) {
        Some(key) => return set(reader, key, rest).ok_or(LineFault::Syntax),
        None => return file_item(alloc, words),
    }
}

/// The key that this word names, of those that a trace may set.
fn key_in(word: &[u8]) -> Option<Key>
    ensures { result ≡ lab_key_of word.now }
{
    key_among(&KEYS, word)
}

fn key_among(keys: &[Key], word: &[u8]) -> Option<Key>
    ensures { result ≡ key_among keys.now word.now }
{
    for key in keys {
        if is(word, key_word(*key)) {
            return Some(*key);
        }
    }
    None
}

/// What comes after the word of a key, which may be set once.
fn set(reader: &Reader, key: Key, words: Words<'_>) -> Option<Item>
    ensures { result ≡ lab_set_of reader.now.keys key (left_of words.entry) }
{
    if reader.keys.has(key) {
        return None;
    }
    value(key, words)
}

/// A number below 2^64 for a key.
#[tactic(auto, unfolding(crate::specs::Items::lab_value_of))]
fn value(key: Key, words: Words<'_>) -> Option<Item>
    ensures { result ≡ lab_value_of key (left_of words.entry) }
{
    let (number, words) = number_to(words, u64::MAX)?;
    end(words)?;
    Some(Item::Set(key, number))
}

/// A file, or `go` behind the last one.
#[tactic(auto, unfolding(crate::specs::Items::lab_file_item))]
fn file_item(alloc: Global, words: Words<'_>) -> Result<Item, LineFault>
    ensures { Judges result (lab_file_item (left_of words.entry)) }
{
    let (word, rest) = next(words).ok_or(LineFault::Syntax)?;
    if is(word, "file") {
        return file(alloc, rest);
    }
    if is(word, "go") {
        return go(rest);
    }
    Err(LineFault::Syntax)
}

fn go(words: Words<'_>) -> Result<Item, LineFault>
    ensures { Judges result (ended (left_of words.entry) Item.Go) }
{
    end(words).ok_or(LineFault::Syntax)?;
    Ok(Item::Go)
}

/// What comes after the word `file`: a path, and how many bytes the file has.
#[tactic(auto, unfolding(crate::specs::Items::lab_file_of))]
fn file(alloc: Global, words: Words<'_>) -> Result<Item, LineFault>
    ensures { Judges result (lab_file_of (left_of words.entry)) }
{
    let (path, words) = path_next(words).ok_or(LineFault::Syntax)?;
    let (size, words) = number_to(words, MAX_FILE_BYTES as u64).ok_or(LineFault::Syntax)?;
    end(words).ok_or(LineFault::Syntax)?;
    let path = Path::from_slice(alloc, path)?;
    Ok(Item::File { path, size })
}

/// An event behind `go`.
fn event_item(alloc: Global, words: Words<'_>) -> Result<Item, LineFault>
    ensures { Judges result (event_item (left_of words.entry)) }
{
    Ok(Item::Event(event(alloc, words)?))
}

/// The event that these words stand for.
#[tactic(auto, unfolding(crate::specs::Items::lab_event_of))]
fn event(alloc: Global, words: Words<'_>) -> Result<LabEvent, LineFault>
    ensures { Judges result (lab_event_of (left_of words.entry)) }
{
    let (word, rest) = next(words).ok_or(LineFault::Syntax)?;
    if is(word, "req") {
        return req(alloc, rest);
    }
    if is(word, "done") {
        return Ok(LabEvent::Done(number_alone(rest).ok_or(LineFault::Syntax)?));
    }
    if is(word, "clock") {
        return Ok(LabEvent::Clock(number_alone(rest).ok_or(LineFault::Syntax)?));
    }
    Err(LineFault::Syntax)
}

/// What comes after the word `req`: a path.
#[tactic(auto, unfolding(crate::specs::Items::req_of))]
fn req(alloc: Global, words: Words<'_>) -> Result<LabEvent, LineFault>
    ensures { Judges result (req_of (left_of words.entry)) }
{
    let text = word_alone(words).ok_or(LineFault::Syntax)?;
    if !is_path(text) {
        return Err(LineFault::Syntax);
    }
    Ok(LabEvent::Req(Path::from_slice(alloc, text)?))
}

/// A word, and nothing more.
#[tactic(auto, unfolding(crate::specs::Items::word_alone))]
fn word_alone(words: Words<'_>) -> Option<&[u8]>
    ensures { Finds seen_text result (word_alone (left_of words.entry)) }
{
    let (word, words) = next(words)?;
    end(words)?;
    Some(word)
}
