//! Why a file is not added.

use thiserror::Error;

/// Why a file is not added.
#[derive(Clone, Copy, Debug, PartialEq, Eq, Error)]
pub enum FileFault {
    /// The path is there already.
    #[error("file repeated")]
    Repeated,
    /// The file has more than 2^20 bytes: this many.
    #[error("file too long: {0}")]
    TooLong(u64),
    /// There would be more than 65,536 files: this many with this one.
    #[error("too many files: {0}")]
    TooMany(u64),
    /// The files would have more than 2^26 bytes in all: this many with this one.
    #[error("files too large: {0}")]
    TooMuch(u64),
    /// Memory ran out.
    #[error("memory ran out")]
    NoMemory,
}
