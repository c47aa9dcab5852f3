//! The limits of a run, and why a step is not done.

use lard_base::NoMemory;

/// The limits of a run.
#[derive(Clone, Copy, Debug, PartialEq, Eq)]
pub enum What {
    /// The input has at most 2^26 bytes.
    Input,
    /// 1,000,000 packets.
    Packets,
    /// 2^29 bytes of packets.
    PacketBytes,
    /// 4,000,000 records.
    Records,
    /// 2^29 bytes of responses.
    Answers,
    /// 16,384 requests of a trace, which a replay knows nothing of.
    Requests,
    /// The bytes that one client writes, which are as many as the responses on one connection may have.
    Stream,
}

/// Why an event can't happen as things stand: it names what is not there, or what is there already.
#[derive(Clone, Copy, Debug, PartialEq, Eq)]
pub enum Refusal {
    /// The client with this number has not opened.
    NoClient(u32),
    /// The client with this number opened before.
    Used(u32),
    /// There is no node `n`; `nodes` are there.
    NoNode { n: u32, nodes: u8 },
    /// Node `n` is to be closed, and each other node is.
    LastNode(u8),
    /// Packet `k` was not sent; `sent` were.
    NotSent { k: u32, sent: u32 },
    /// The packet with this number was lost.
    WasLost(u32),
    /// The disk of node `n` has no `j`-th job; `len` are queued.
    NoJob { n: u8, j: u32, len: u32 },
}

/// Why a step is not done. All but `NoMemory` leave everything as it was.
#[derive(Clone, Copy, Debug, PartialEq, Eq)]
pub enum StepFault {
    /// The event can't happen.
    Refused(Refusal),
    /// A limit was reached before the step; or the client would write more than `Stream` allows.
    Limit(What),
    NoMemory,
}

impl From<NoMemory> for StepFault {
    ghost use Rattle.std.specs.Prelude.{◌≡◌};
    ghost use Rattle.lard_rules.specs.declared.fault.StepFault.TheVariants.{NoMemory};

    ghost from_gives = { λ _ fault. fault ≡ NoMemory };

    fn from(_: NoMemory) -> StepFault {
        StepFault::NoMemory
    }
}
