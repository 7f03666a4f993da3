//! From CSV to the changes that it adds to a source.
ghost use Rattle.std.specs.Prelude.{◌≡◌, ◌≢◌, All, Err, IfOk, option_map, true};
ghost use Rattle.record_text.specs.KindLists.{kinds_of};
ghost use Rattle.plain_csv.specs.Plain.{is_plain};
ghost use Rattle.csv_changes.specs.Changes.{GivesCsv, at_record, atom_at, changes_in, changes_of, fault_of_kind, left_if, row_at, weight_at, weighted_at, without_header};

use crate::fault::{CsvFault, CsvWhat};
use crate::records::{QuotedRecords, Records};
use frac_core::Frac;
use plain_csv::{PlainRecords, is_plain};
use record_text::{Atom, AtomFault, Kind, Kinds, Memory, Row, atom_from_field};
use std::alloc::Global;
use std::marker::Model;
use weighted_set::Weighted;

/// Rows with the weights that are added to them, in order.
#[derive(Drop)]
pub struct Added {
    list: Vec<Weighted>,
}

impl Model for Added {
    ghost use Rattle.std.specs.Prelude.{List};
    ghost use Rattle.weighted_set.specs.declared.weighted.Weighted.{Weighted};

    ghost Value = { List Weighted };

    ghost view = { λ added. added.list.items };
}

impl Added {
    /// The rows and weights of this list.
    pub fn from_vec(list: Vec<Weighted>) -> Added
        ensures { result ≡ list.items }
    {
        Added { list }
    }

    /// The rows and weights, lent.
    pub fn as_slice(&self) -> &[Weighted]
        ensures { result.now ≡ self.now }
    {
        self.list.as_slice()
    }
}

/// The changes that a CSV text adds to a source of these kinds, one a record: a field for each column, and
/// last the weight that is added, which may be negative. Commas stand between fields, double quotes around
/// a field that has commas, quotes or line ends in it, and no space is taken off. Empty lines are no records.
///
/// Where `header` is true, the first record is a header and no change. `Bad` names the first record that is
/// no change, and in it the width before any field, and the fields from the left. `Memory` may come in place
/// of any answer.
pub fn read_changes(
    alloc: Global,
    csv: &[u8],
    kinds: Kinds,
    header: bool,
) -> Result<Added, CsvFault>
    ensures value { GivesCsv result (changes_of csv.now kinds header) }
    ensures kinds { IfOk result (λ added. All (λ change. kinds_of change.row ≡ kinds) added) }
{
    if is_plain(csv) {
        plain_changes(alloc, csv, kinds, header)
    } else {
        quoted_changes(alloc, csv, kinds, header)
    }
}

// The changes of a text that has no double quote.
fn plain_changes(alloc: Global, csv: &[u8], kinds: Kinds, header: bool) -> Result<Added, CsvFault>
    requires { is_plain csv.now ≡ true }
    ensures { GivesCsv result (changes_of csv.now kinds header) }
{
    let mut records = PlainRecords::new(alloc, csv);
    changes(alloc, &mut records, kinds, header)
}

// The changes of any text. This stands by itself, since the reader takes many kilobytes of the stack.
#[inline(never)]
fn quoted_changes(alloc: Global, csv: &[u8], kinds: Kinds, header: bool) -> Result<Added, CsvFault>
    ensures { GivesCsv result (changes_of csv.now kinds header) }
{
    let mut records = QuotedRecords::new(alloc, csv);
    changes(alloc, &mut records, kinds, header)
}

// The changes of the records, of which the first may be a header.
fn changes<R: Records>(
    alloc: Global,
    records: &mut R,
    kinds: Kinds,
    header: bool,
) -> Result<Added, CsvFault>
    requires { R.reads records.old }
    ensures { GivesCsv result (changes_in kinds (without_header header (R.progress records.old).left)) }
{
    if !pass_header(records, header)? {
        return Ok(Added::from_vec(Vec::new(alloc)));
    }
    changes_left(alloc, records, kinds)
}

// Passes over the header, and says whether there may be more records.
fn pass_header<R: Records>(records: &mut R, header: bool) -> Result<bool, Memory>
    requires { R.reads records.old }
    ensures reads { IfOk result (λ more. more ≡ true → R.reads records.new) }
    ensures left { IfOk result (λ more. without_header header (R.progress records.old).left ≡ left_if more (R.progress records.new).left) }
{
    if header {
        records.next_record()
    } else {
        Ok(true)
    }
}

// The changes of the records that are left.
fn changes_left<R: Records>(alloc: Global, records: &mut R, kinds: Kinds) -> Result<Added, CsvFault>
    requires { R.reads records.old }
    ensures { GivesCsv result (changes_in kinds (R.progress records.old).left) }
{
    let mut added = Vec::new(alloc);
    while records.next_record()? {
        let change = weighted(alloc, added.len(), records, kinds)?;
        added.push(change)?;
    }
    Ok(Added::from_vec(added))
}

// The change of the record at hand, which has this place.
fn weighted<R: Records>(
    alloc: Global,
    at: usize,
    records: &R,
    kinds: Kinds,
) -> Result<Weighted, CsvFault>
    ensures { GivesCsv result (weighted_at kinds at (R.progress records.now).fields) }
{
    if records.field_count() != kinds.len() + 1 {
        return bad(at, CsvWhat::Width);
    }
    let row = row(alloc, at, records, kinds)?;
    let weight = weight(at, records.field(kinds.len()))?;
    Ok(Weighted { row, weight })
}

// The row of the first fields of the record at hand.
fn row<R: Records>(alloc: Global, at: usize, records: &R, kinds: Kinds) -> Result<Row, CsvFault>
    ensures { GivesCsv result (row_at at kinds (R.progress records.now).fields) }
{
    let mut atoms = Vec::with_capacity(alloc, kinds.len())?;
    for column in 0..kinds.len() {
        let atom = atom(alloc, at, records.field(column), kinds.at(column))?;
        atoms.push(atom)?;
    }
    Ok(Row::from_atoms(atoms))
}

// The atom of a field in a column of this kind.
fn atom(alloc: Global, at: usize, field: Option<&[u8]>, kind: Kind) -> Result<Atom, CsvFault>
    ensures { GivesCsv result (atom_at at kind (option_map (λ text. text.now) field.entry)) }
{
    match field {
        Some(field) => at_record(at, kind, atom_from_field(alloc, field, kind)),
        None => bad(at, CsvWhat::Width),
    }
}

// The answer about a field, told of its record: only want of memory is want of memory.
fn at_record(at: usize, kind: Kind, answer: Result<Atom, AtomFault>) -> Result<Atom, CsvFault>
    ensures { result ≡ at_record at kind answer }
{
    match answer {
        Ok(atom) => Ok(atom),
        Err(AtomFault::Memory) => Err(CsvFault::Memory),
        Err(_) => bad(at, fault_of_kind(kind)),
    }
}

// Refuses the record at this place.
fn bad<T>(at: usize, what: CsvWhat) -> Result<T, CsvFault>
    ensures { result ≡ Err (CsvFault.Bad at what) }
{
    Err(CsvFault::Bad { at, what })
}

// What a field is that is no atom of this kind.
fn fault_of_kind(kind: Kind) -> CsvWhat
    ensures { result ≡ fault_of_kind kind }
{
    match kind {
        Kind::Int => CsvWhat::Int,
        Kind::Text => CsvWhat::Text,
    }
}

// The weight of a record's last field. It takes no memory.
fn weight(at: usize, field: Option<&[u8]>) -> Result<Frac, CsvFault>
    ensures weight { GivesCsv result (weight_at at (option_map (λ text. text.now) field.entry)) }
    ensures no_memory { result ≢ Err CsvFault.Memory }
{
    let Some(field) = field else {
        return bad(at, CsvWhat::Width);
    };
    match Frac::read(field) {
        Ok(weight) => Ok(weight),
        Err(_) => bad(at, CsvWhat::Weight),
    }
}
