//! What a line stands for, and why it stands for nothing.

use lard_base::{Bytes, Event, Key, NoMemory, Path};

/// What a line of a schedule stands for.
#[derive(Debug, Drop)]
pub enum Item {
    /// `lard 1`, the version of the format.
    Header,
    /// A number of the configuration, below 2^64. Whether it is in its key's range is not asked here.
    Set(Key, u64),
    /// A file with its content, given byte by byte or as one byte so many times.
    File { path: Path, bytes: Bytes },
    /// `go`: the configuration is whole, and events follow.
    Go,
    /// A step of the schedule.
    Event(Event),
}

/// Why a line stands for nothing.
#[derive(Clone, Copy, Debug, PartialEq, Eq)]
pub enum LineFault {
    /// It is no line of the schedule in its place.
    Syntax,
    /// Memory ran out.
    NoMemory,
}

impl From<NoMemory> for LineFault {
    ghost use Rattle.std.specs.Prelude.{◌≡◌};
    ghost use Rattle.lard_schedule.specs.declared.item.LineFault.TheVariants.{NoMemory};

    ghost from_gives = { λ _ fault. fault ≡ NoMemory };

    fn from(_: NoMemory) -> LineFault {
        LineFault::NoMemory
    }
}
