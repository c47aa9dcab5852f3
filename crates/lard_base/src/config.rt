//! The configuration of a run: how many nodes, the thresholds and costs of the policy, and the limits.

ghost use Rattle.std.specs.Prelude.{◌≡◌, ◌≤◌, ◌<◌, IsTrue, OnOk};

use crate::limits::MAX_STREAM_BYTES;
use thiserror::Error;

/// The numbers of a run.
#[derive(Clone, Copy, Debug, PartialEq, Eq)]
pub struct Config {
    /// How many nodes, 1 to 64.
    pub nodes: u8,
    /// The load in connections below which a node has room to spare, 1 to 1,000.
    pub low: u32,
    /// The load in connections above which a node is to be relieved, 1 to 1,000.
    pub high: u32,
    /// How long a server set stays as it is before it shrinks, in milliseconds, below 2^32.
    pub age: u64,
    /// The load in connections below which a later request costs nothing to balance, to 1,000,000.
    pub idle: u32,
    /// The load in connections above which a later request is too dear, to 1,000,000.
    pub over: u32,
    /// The cost of a cache miss in connections, to 1,000,000.
    pub miss: u32,
    /// The bytes of each node's cache, 1 to 2^30.
    pub cache: u32,
    /// The most bytes of responses on one connection, 1 to 2^30.
    pub stream: u32,
}

/// The name of one of the numbers. Its range stands beside the field of `Config`.
#[derive(Clone, Copy, Debug, PartialEq, Eq)]
pub enum Key {
    Nodes,
    Low,
    High,
    Age,
    Idle,
    Over,
    Miss,
    Cache,
    Stream,
}

/// Why a configuration can't be used.
#[derive(Clone, Copy, Debug, PartialEq, Eq, Error)]
pub enum ConfigFault {
    #[error("the value {value} is out of the range of its key")]
    Range { key: Key, value: u64 },
    #[error("low {low} is above high {high}")]
    LowHigh { low: u32, high: u32 },
    #[error("no connection can be admitted")]
    NoRoom,
}

impl Key {
    ghost use Rattle.lard_base.specs.Config.{range_check, range_of};

    /// The keys, in their order.
    pub const ALL: [Key; 9] = [
        Key::Nodes,
        Key::Low,
        Key::High,
        Key::Age,
        Key::Idle,
        Key::Over,
        Key::Miss,
        Key::Cache,
        Key::Stream,
    ];

    /// Answers a fault exactly where the value is out of this key's range.
    fn check(self, value: u64) -> Result<(), ConfigFault>
        ensures { result ≡ range_check self value }
    {
        let (least, greatest) = self.range();
        if value < least || value > greatest {
            return Err(ConfigFault::Range { key: self, value });
        }
        Ok(())
    }

    /// The least and the greatest value.
    fn range(self) -> (u64, u64)
        ensures { result ≡ range_of self }
    {
        match self {
            Key::Nodes => (1, 64),
            Key::Low | Key::High => (1, 1000),
            Key::Age => (0, 0xffff_ffff),
            Key::Idle | Key::Over | Key::Miss => (0, 1_000_000),
            Key::Cache => (1, 1 << 30),
            Key::Stream => (1, MAX_STREAM_BYTES as u64),
        }
    }
}

impl Config {
    ghost use Rattle.lard_base.specs.Config.{standard, value_of, AreKeysInRange, range_check, after_set, room_of, config_check};

    /// The numbers of a run whose schedule sets none.
    pub fn standard() -> Config
        ensures numbers { result ≡ standard }
        ensures usable { config_check result ≡ Ok tt }
    {
        Config {
            nodes: 2,
            low: 25,
            high: 65,
            age: 20_000,
            idle: 25,
            over: 130,
            miss: 50,
            cache: 1_048_576,
            stream: MAX_STREAM_BYTES,
        }
    }

    /// The number of a key.
    pub fn get(&self, key: Key) -> u64
        ensures { result ≡ value_of self.now key }
    {
        match key {
            Key::Nodes => self.nodes as u64,
            Key::Low => self.low as u64,
            Key::High => self.high as u64,
            Key::Age => self.age,
            Key::Idle => self.idle as u64,
            Key::Over => self.over as u64,
            Key::Miss => self.miss as u64,
            Key::Cache => self.cache as u64,
            Key::Stream => self.stream as u64,
        }
    }

    /// Sets the number of a key. A value out of the key's range is answered by `ConfigFault::Range` with both, and
    /// changes nothing.
    pub fn set(&mut self, key: Key, value: u64) -> Result<(), ConfigFault>
        ensures answer { result ≡ range_check key value }
        ensures after { self.new ≡ after_set self.old key value }
    {
        key.check(value)?;
        match key {
            Key::Nodes => self.nodes = value as u8,
            Key::Low => self.low = value as u32,
            Key::High => self.high = value as u32,
            Key::Age => self.age = value,
            Key::Idle => self.idle = value as u32,
            Key::Over => self.over = value as u32,
            Key::Miss => self.miss = value as u32,
            Key::Cache => self.cache = value as u32,
            Key::Stream => self.stream = value as u32,
        }
        Ok(())
    }

    /// How many connections are admitted at a time, to 63,999: (nodes - 1) * high + low - 1. Each number is in its
    /// range.
    pub fn room(&self) -> u32
        requires { AreKeysInRange self.now }
        ensures room { result ≡ room_of self.now }
        ensures most { result ≤ 63999 }
    {
        (self.nodes as u32 - 1) * self.high + self.low - 1
    }

    /// Whether the configuration can be used: each number is in its range, low is at most high, and at least one
    /// connection is admitted. Else it answers the first fault: `Range`, keys in their order, then `LowHigh`, then
    /// `NoRoom`.
    pub fn check(&self) -> Result<(), ConfigFault>
        ensures answer { result ≡ config_check self.now }
        ensures in_range { OnOk result (AreKeysInRange self.now) }
        ensures ordered { OnOk result (self.now.low ≤ self.now.high) }
        ensures some_room { OnOk result (0 < room_of self.now) }
    {
        for key in Key::ALL {
            key.check(self.get(key))?;
        }
        if self.low > self.high {
            return Err(ConfigFault::LowHigh {
                low: self.low,
                high: self.high,
            });
        }
        if self.room() == 0 {
            return Err(ConfigFault::NoRoom);
        }
        Ok(())
    }
}
