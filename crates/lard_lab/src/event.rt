//! What happens in a trace, and why it is refused.

use lard_base::Path;
use thiserror::Error;

/// One event of a trace.
#[derive(Debug, Drop)]
pub enum LabEvent {
    /// A request for this path comes.
    Req(Path),
    /// The request with this number, counted from 1, is done.
    Done(u32),
    /// The clock moves on by so many milliseconds.
    Clock(u32),
}

/// Why an event is refused. The first that applies is answered.
#[derive(Clone, Copy, Debug, PartialEq, Eq, Error)]
pub enum LabFault {
    /// The path of the request is that of no file.
    #[error("no such file")]
    NoFile,
    /// No request has this number, or it was full, or it is done.
    #[error("request {0} is not open")]
    NotOpen(u32),
    /// 16,384 requests were made before.
    #[error("too many requests")]
    Limit,
    /// Memory ran out.
    #[error("memory ran out")]
    NoMemory,
}
