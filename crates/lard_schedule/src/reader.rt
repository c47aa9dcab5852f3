//! The reader of a schedule, line by line.

ghost use Rattle.std.specs.Prelude.{◌≡◌, ◌↔◌, IsTrue, IfOk, OnErr};
ghost use Rattle.lard_schedule.specs.Reader.{HasRange, reader_after, header_of, item_of, set_once, setting_item, reader_start, value_item};
ghost use Rattle.lard_schedule.specs.Words.{Judges, left_of};

use crate::events::event;
use crate::files::file_item;
use crate::item::{Item, LineFault};
use crate::keys::{Keys, key_in};
use crate::numbers::number_to;
use crate::words::{Words, end, is, next, words_of};
use lard_base::Key;
use std::alloc::Global;

/// What was read so far of a schedule.
#[derive(Clone, Copy, Debug, PartialEq, Eq)]
pub enum Stage {
    /// Nothing.
    Start,
    /// The line `lard 1`, and perhaps numbers of the configuration.
    Settings,
    /// The first file too.
    Files,
    /// The line `go` too. Each further line is an event.
    Running,
}

/// What a reader knows of the lines before: how far they went, and which keys they set.
#[derive(Clone, Copy, Debug, PartialEq, Eq)]
pub struct Reader {
    pub stage: Stage,
    pub keys: Keys,
}

impl Reader {
    /// A reader that has read nothing.
    pub fn new() -> Reader
        ensures { result ≡ reader_start }
    {
        Reader {
            stage: Stage::Start,
            keys: Keys::none(),
        }
    }

    /// Whether the line `go` was read.
    pub fn is_running(&self) -> bool
        ensures { IsTrue result ↔ (self.now.stage ≡ Stage.Running) }
    {
        match self.stage {
            Stage::Start => false,
            Stage::Settings => false,
            Stage::Files => false,
            Stage::Running => true,
        }
    }

    /// Reads the next line, given without its line feed, and answers what it stands for. `Syntax` comes where the line is
    /// none of the schedule in its place, and `NoMemory` where memory runs out; the reader is then as before.
    pub fn feed_line(&mut self, alloc: Global, line: &[u8]) -> Result<Item, LineFault>
        ensures judged { Judges result (item_of self.old line.now) }
        ensures range { IfOk result HasRange }
        ensures ok { IfOk result (λ item. self.new ≡ reader_after self.old item) }
        ensures err { OnErr result (self.new ≡ self.old) }
    {
        let item = self.item(alloc, line)?;
        self.pass(&item);
        Ok(item)
    }

    /// What the line stands for in its place.
    fn item(&self, alloc: Global, line: &[u8]) -> Result<Item, LineFault>
        ensures { Judges result (item_of self.now line.now) }
    {
        match self.stage {
            Stage::Start => return header(line),
            Stage::Settings => return self.setting(alloc, words_of(line)),
            Stage::Files => return file_item(alloc, words_of(line)),
            Stage::Running => return Ok(Item::Event(event(alloc, words_of(line))?)),
        }
    }

    /// A number of the configuration, a file, or `go`.
    #[tactic(auto, unfolding(crate::specs::Reader::setting_item))]
    fn setting(&self, alloc: Global, words: Words<'_>) -> Result<Item, LineFault>
        ensures { Judges result (setting_item self.now.keys (left_of words.entry)) }
    {
        let (word, rest) = next(words).ok_or(LineFault::Syntax)?;
        match key_in(word) {
            Some(key) => return self.set(key, rest).ok_or(LineFault::Syntax),
            None => return file_item(alloc, words),
        }
    }

    /// What comes after the word of a key, which may be set once.
    fn set(&self, key: Key, words: Words<'_>) -> Option<Item>
        ensures { result ≡ set_once self.now.keys key (left_of words.entry) }
    {
        if self.keys.has(key) {
            return None;
        }
        value(key, words)
    }

    /// Goes on behind a line that stood for the item.
    fn pass(&mut self, item: &Item)
        ensures { self.new ≡ reader_after self.old item.now }
    {
        match item {
            Item::Header => self.stage = Stage::Settings,
            Item::Set(key, _) => self.keys.add(*key),
            Item::File { .. } => self.stage = Stage::Files,
            Item::Go => self.stage = Stage::Running,
            Item::Event(_) => (),
        }
    }
}

/// A number below 2^64 for a key.
#[tactic(auto, unfolding(crate::specs::Reader::value_item))]
fn value(key: Key, words: Words<'_>) -> Option<Item>
    ensures { result ≡ value_item key (left_of words.entry) }
{
    let (number, words) = number_to(words, u64::MAX)?;
    end(words)?;
    Some(Item::Set(key, number))
}

fn header(line: &[u8]) -> Result<Item, LineFault>
    ensures { Judges result (header_of line.now) }
{
    if is(line, "lard 1") {
        return Ok(Item::Header);
    }
    Err(LineFault::Syntax)
}
