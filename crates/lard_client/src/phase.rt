//! Whether a client goes on.

/// Whether a client goes on, or how it ended before its time.
#[derive(Clone, Copy, Debug, PartialEq, Eq)]
pub enum Phase {
    /// It goes on, or all was said.
    Open,
    /// It reset its connection.
    Aborted,
    /// The cluster reset its connection.
    Reset,
}
