//! Why bytes are no message.

ghost use Rattle.std.specs.Prelude.{◌≡◌};
ghost use Rattle.lard_message.specs.declared.fault.MsgFault.TheVariants as fault;

use std::alloc::{AllocError, AllocFailed};
use thiserror::Error;

/// Why bytes are no message: the first that applies, in the order of the variants. Memory may run out at any time, and
/// nothing is known of the bytes then.
#[derive(Clone, Copy, Debug, PartialEq, Eq, Error)]
pub enum MsgFault {
    #[error("there are fewer than 10 bytes")]
    Short,
    #[error("no message has this version")]
    Version,
    #[error("no message of this version has this kind")]
    Kind,
    #[error("there are fewer bytes than the length says")]
    Length,
    #[error("there are more bytes than the length says")]
    Trailing,
    #[error("the connection or the body is none of a message of this kind")]
    Field,
    #[error("memory ran out")]
    NoMemory,
}

impl From<AllocError> for MsgFault {
    ghost from_gives = { λ _ e. e ≡ fault.NoMemory };

    fn from(_: AllocError) -> MsgFault {
        MsgFault::NoMemory
    }
}

impl<T: Drop> From<AllocFailed<T>> for MsgFault {
    ghost from_gives = { λ _ e. e ≡ fault.NoMemory };

    fn from(_: AllocFailed<T>) -> MsgFault {
        MsgFault::NoMemory
    }
}

impl From<lard_base::NoMemory> for MsgFault {
    ghost from_gives = { λ _ e. e ≡ fault.NoMemory };

    fn from(_: lard_base::NoMemory) -> MsgFault {
        MsgFault::NoMemory
    }
}
