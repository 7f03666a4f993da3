//! The records of a CSV text, one after another: those of `csv`, or those of a text that has no double quote.
ghost use Rattle.std.specs.Prelude.{◌≡◌, ℕ, List, ⊤, true, length, option_map, IfOk};
ghost use Rattle.csv.specs.Reading.{default_config, records, strip_bom};
ghost use Rattle.csv.specs.Records.{field_at, fields_of};
ghost use Rattle.plain_csv.specs.Progress.{Progress, found_and_left};
ghost use Rattle.csv_changes.specs.RecordsLeft.{IsReading, records_left};

use csv::{ByteRecord, ErrorKind, Reader, ReaderBuilder};
use plain_csv::PlainRecords;
use record_text::Memory;
use std::alloc::Global;

/// Records of a text, of which one is at hand.
pub trait Records {
    // it may be asked for the next record
    ghost reads: { Self → Type 0 };

    // the record at hand, and those that are left
    ghost progress: { Self → Progress };

    /// Reads the next record, and says whether there was one.
    fn next_record(&mut self) -> Result<bool, Memory>
        requires { reads self.old }
        ensures reads { IfOk result (λ found. found ≡ true → reads self.new) }
        ensures next { IfOk result (λ found. (progress self.old).left ≡ found_and_left found (progress self.new)) };

    /// How many fields the record at hand has.
    fn field_count(&self) -> usize
        ensures { result ≡ length (progress self.now).fields };

    /// The field of the record at hand in this column, if it has one.
    fn field(&self, column: usize) -> Option<&[u8]>
        ensures { option_map (λ text. text.now) result ≡ field_at (progress self.now).fields column };
}

impl<'a> Records for PlainRecords<'a> {
    ghost reads = { λ _. ⊤ };

    ghost progress = { λ reader. reader };

    fn next_record(&mut self) -> Result<bool, Memory> {
        PlainRecords::next_record(self)
    }

    fn field_count(&self) -> usize {
        self.fields().len()
    }

    fn field(&self, column: usize) -> Option<&[u8]> {
        self.fields().get(column).copied()
    }
}

/// The records of any text, by a reader of records of any width.
#[derive(Drop)]
pub struct QuotedRecords<'a> {
    reader: Reader<&'a [u8]>,
    fields: ByteRecord,
}

impl<'a> QuotedRecords<'a> {
    /// All records of the text.
    pub fn new(alloc: Global, text: &'a [u8]) -> QuotedRecords<'a>
        ensures reads { IsReading result.reader }
        ensures left { records_left result.reader ≡ records default_config (strip_bom text.now) }
    {
        let reader = ReaderBuilder::new()
            .has_headers(false)
            .flexible(true)
            .from_reader(alloc, text);
        QuotedRecords {
            reader,
            fields: ByteRecord::new(alloc),
        }
    }
}

impl<'a> Records for QuotedRecords<'a> {
    ghost reads = { λ records. IsReading records.reader };

    ghost progress = { λ records. record { fields = fields_of records.fields; left = records_left records.reader } };

    fn next_record(&mut self) -> Result<bool, Memory> {
        match self.reader.read_byte_record(&mut self.fields) {
            Ok(found) => Ok(found),
            Err(error) => match error.kind() {
                // Bytes in memory give no IO error, though no clause of `csv` says so.
                ErrorKind::Io(_) | ErrorKind::OutOfMemory => Err(Memory),
                _ => unreachable!(),
            },
        }
    }

    fn field_count(&self) -> usize {
        self.fields.len()
    }

    fn field(&self, column: usize) -> Option<&[u8]> {
        self.fields.get(column)
    }
}
