//! Why a CSV text is no list of changes.
ghost use Rattle.std.specs.Prelude.{◌≡◌};
ghost use Rattle.csv_changes.specs.declared.fault.CsvFault.TheVariants as fault;

use record_text::Memory;
use std::alloc::AllocFailed;
use thiserror::Error;

/// What keeps a record from being a change.
#[derive(Clone, Copy, Debug, PartialEq, Eq, Error)]
pub enum CsvWhat {
    /// It doesn't have a field for each column and one more.
    #[error("the record has another number of fields")]
    Width,
    /// A field is no Int, and one is declared for its column.
    #[error("a field is no whole number")]
    Int,
    /// A field is no UTF-8 or has over 255 bytes, and a Text is declared for its column.
    #[error("a field is no text")]
    Text,
    /// The last field is no weight: its form, a denominator of 0 or its range keeps it from being one.
    #[error("the last field is no weight")]
    Weight,
}

/// Why a CSV text was not read as changes.
#[derive(Clone, Copy, Debug, PartialEq, Eq, Error)]
pub enum CsvFault {
    /// The record at this place, of which the first is 0 and a header is none, is no change.
    #[error("record {at}: {what}")]
    Bad { at: usize, what: CsvWhat },
    /// There was no memory.
    #[error("out of memory")]
    Memory,
}

impl From<Memory> for CsvFault {
    ghost from_gives = { λ _ e. e ≡ fault.Memory };

    fn from(_e: Memory) -> CsvFault {
        CsvFault::Memory
    }
}

impl<T: Drop> From<AllocFailed<T>> for CsvFault {
    ghost from_gives = { λ _ e. e ≡ fault.Memory };

    fn from(_e: AllocFailed<T>) -> CsvFault {
        CsvFault::Memory
    }
}
