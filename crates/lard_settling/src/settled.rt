//! How a settle ended.

/// How a settle ended.
#[derive(Debug, Clone, Copy, PartialEq, Eq, Drop)]
pub enum Settled {
    /// After so many rounds nothing was left.
    Quiet(u32),
    /// So many rounds were done, as many as were allowed, and so many timers and jobs are left.
    Open { rounds: u32, left: u64 },
}
