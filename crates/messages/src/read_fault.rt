//! Why no request is read of a line.
ghost use Rattle.std.specs.Prelude.{◌≡◌};
ghost use Rattle.messages.specs.declared.read_fault.ReadFault.TheVariants as fault;

use crate::Memory;
use crate::refusal::Refusal;
use std::alloc::AllocFailed;
use thiserror::Error;

/// Why no request was read.
#[derive(Debug, Drop, Error)]
pub enum ReadFault {
    /// The line is refused.
    #[error(transparent)]
    Refused(Refusal),
    /// There was no memory.
    #[error("out of memory")]
    Memory,
}

impl From<Memory> for ReadFault {
    ghost from_gives = { λ _ e. e ≡ fault.Memory };

    fn from(_e: Memory) -> ReadFault {
        ReadFault::Memory
    }
}

impl<T: Drop> From<AllocFailed<T>> for ReadFault {
    ghost from_gives = { λ _ e. e ≡ fault.Memory };

    fn from(_e: AllocFailed<T>) -> ReadFault {
        ReadFault::Memory
    }
}
