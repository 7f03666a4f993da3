//! Why words give no options.
ghost use Rattle.std.specs.Prelude.{◌≡◌};
ghost use Rattle.program_words.specs.declared.fault.WordsFault.TheVariants as fault;

use std::alloc::AllocError;
use thiserror::Error;

/// Why words give no options.
#[derive(Clone, Copy, Debug, PartialEq, Eq, Error)]
pub enum WordsFault {
    /// A word is unknown, repeated or lacks its value, or a value is out of form or range.
    #[error("the words are faulty")]
    Faulty,
    /// There was no memory to read them.
    #[error("out of memory")]
    Memory,
}

impl From<AllocError> for WordsFault {
    ghost from_gives = { λ _ e. e ≡ fault.Memory };

    fn from(_: AllocError) -> WordsFault {
        WordsFault::Memory
    }
}
