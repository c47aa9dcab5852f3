//! Which numbers of the configuration were set, and the words that name them.

ghost use Rattle.std.specs.Prelude.{◌≡◌};
ghost use Rattle.lard_base.specs.Spelling.{key_word};
ghost use Rattle.lard_schedule.specs.Reader.{has_key, key_among, key_of, no_keys, with_key};

use crate::words::is;
use lard_base::Key;

/// The keys whose numbers were set.
#[derive(Clone, Copy, Debug, PartialEq, Eq)]
pub struct Keys {
    pub nodes: bool,
    pub low: bool,
    pub high: bool,
    pub age: bool,
    pub idle: bool,
    pub over: bool,
    pub miss: bool,
    pub cache: bool,
    pub stream: bool,
}

impl Keys {
    /// No key was set.
    pub fn none() -> Keys
        ensures { result ≡ no_keys }
    {
        Keys {
            nodes: false,
            low: false,
            high: false,
            age: false,
            idle: false,
            over: false,
            miss: false,
            cache: false,
            stream: false,
        }
    }

    /// Whether the key was set.
    pub fn has(&self, key: Key) -> bool
        ensures { result ≡ has_key self.now key }
    {
        match key {
            Key::Nodes => self.nodes,
            Key::Low => self.low,
            Key::High => self.high,
            Key::Age => self.age,
            Key::Idle => self.idle,
            Key::Over => self.over,
            Key::Miss => self.miss,
            Key::Cache => self.cache,
            Key::Stream => self.stream,
        }
    }

    /// Notes that the key was set.
    pub fn add(&mut self, key: Key)
        ensures { self.new ≡ with_key self.old key }
    {
        match key {
            Key::Nodes => self.nodes = true,
            Key::Low => self.low = true,
            Key::High => self.high = true,
            Key::Age => self.age = true,
            Key::Idle => self.idle = true,
            Key::Over => self.over = true,
            Key::Miss => self.miss = true,
            Key::Cache => self.cache = true,
            Key::Stream => self.stream = true,
        }
    }
}

/// The key that this word names.
pub fn key_in(word: &[u8]) -> Option<Key>
    ensures { result ≡ key_of word.now }
{
    key_among(&Key::ALL, word)
}

fn key_among(keys: &[Key], word: &[u8]) -> Option<Key>
    ensures { result ≡ key_among keys.now word.now }
{
    for key in keys {
        if is(word, key_word(*key)) {
            return Some(*key);
        }
    }
    None
}

/// The word that names a key.
pub fn key_word(key: Key) -> &'static str
    ensures { result.now ≡ key_word key }
{
    match key {
        Key::Nodes => "nodes",
        Key::Low => "low",
        Key::High => "high",
        Key::Age => "age",
        Key::Idle => "idle",
        Key::Over => "over",
        Key::Miss => "miss",
        Key::Cache => "cache",
        Key::Stream => "stream",
    }
}
