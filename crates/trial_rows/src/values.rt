//! Rows and weights made of plain numbers, and compared with them.
ghost use Rattle.std.specs.Prelude.{◌≤◌, ◌<◌, length};

use frac_core::Frac;
use record_text::{Atom, Row};
use std::alloc::Global;
use weighted_set::{Change, Memory, Weighted};

/// The largest weight.
pub const MOST: i64 = 4611686018427387903;

/// A row of one number.
pub fn row(alloc: Global, number: i64) -> Result<Row, Memory> {
    let mut atoms = Vec::new(alloc);
    atoms.push(Atom::Int(number))?;
    Ok(Row::from_atoms(atoms))
}

/// A row of two numbers.
pub fn pair(alloc: Global, first: i64, second: i64) -> Result<Row, Memory> {
    let mut atoms = Vec::new(alloc);
    atoms.push(Atom::Int(first))?;
    atoms.push(Atom::Int(second))?;
    Ok(Row::from_atoms(atoms))
}

/// A row of numbers.
pub fn row_of(alloc: Global, numbers: &[i64]) -> Result<Row, Memory>
    requires some { 0 < length numbers.now }
    requires few { length numbers.now ≤ 16 }
{
    let mut atoms = Vec::new(alloc);
    for number in numbers {
        atoms.push(Atom::Int(*number))?;
    }
    Ok(Row::from_atoms(atoms))
}

/// A whole weight.
pub fn whole(number: i64) -> Frac {
    match Frac::new(number, 1) {
        Ok(weight) => weight,
        Err(_) => Frac::zero(),
    }
}

/// Rows of one number, with whole weights.
pub fn weights(alloc: Global, pairs: &[(i64, i64)]) -> Result<Vec<Weighted>, Memory> {
    let mut list = Vec::new(alloc);
    for (number, weight) in pairs {
        let row = row(alloc, *number)?;
        let weight = whole(*weight);
        list.push(Weighted { row, weight })?;
    }
    Ok(list)
}

/// Rows of two numbers, with whole weights.
pub fn pair_weights(alloc: Global, rows: &[(i64, i64, i64)]) -> Result<Vec<Weighted>, Memory> {
    let mut list = Vec::new(alloc);
    for (first, second, weight) in rows {
        let row = pair(alloc, *first, *second)?;
        let weight = whole(*weight);
        list.push(Weighted { row, weight })?;
    }
    Ok(list)
}

/// A row of two numbers, and the numerator and the denominator of its weight.
pub type Added = (i64, i64, i64, i64);

/// Rows of two numbers, with weights.
pub fn pair_fractions(alloc: Global, rows: &[Added]) -> Result<Vec<Weighted>, Memory> {
    let mut list = Vec::new(alloc);
    for (first, second, numer, denom) in rows {
        let row = pair(alloc, *first, *second)?;
        let weight = ratio((*numer, *denom));
        list.push(Weighted { row, weight })?;
    }
    Ok(list)
}

/// Whether the row is that of one number.
pub fn is_row(row: &Row, number: i64) -> bool {
    if row.len() != 1 {
        return false;
    }
    match row.atom(0) {
        Atom::Int(found) => *found == number,
        Atom::Text(_) => false,
    }
}

/// Whether the rows are these of one number, with these whole weights.
pub fn are_weights(list: &[Weighted], wanted: &[(i64, i64)]) -> bool {
    if list.len() != wanted.len() {
        return false;
    }
    for (found, (number, weight)) in list.iter().zip(wanted) {
        if !is_row(&found.row, *number) || found.weight != whole(*weight) {
            return false;
        }
    }
    true
}

/// Whether the changes are those of these rows of one number, each from a whole weight to another.
pub fn are_changes(list: &[Change], wanted: &[(i64, i64, i64)]) -> bool {
    if list.len() != wanted.len() {
        return false;
    }
    for (found, (number, old, new)) in list.iter().zip(wanted) {
        if !is_row(&found.row, *number) || found.old != whole(*old) || found.new != whole(*new) {
            return false;
        }
    }
    true
}

/// A change of a row of numbers, from a weight to another, each as a numerator and a denominator.
pub type Shown<'a> = (&'a [i64], (i64, i64), (i64, i64));

/// A weight from its numerator and its denominator.
pub fn ratio((numer, denom): (i64, i64)) -> Frac {
    match Frac::new(numer, denom) {
        Ok(weight) => weight,
        Err(_) => Frac::zero(),
    }
}

// Whether the row is that of these numbers.
fn is_row_of(row: &Row, numbers: &[i64]) -> bool {
    if row.len() != numbers.len() {
        return false;
    }
    for at in 0..row.len() {
        match row.atom(at) {
            Atom::Int(found) if *found == numbers[at] => {}
            _ => return false,
        }
    }
    true
}

/// Whether the changes are these.
pub fn are_shown(list: &[Change], wanted: &[Shown]) -> bool {
    if list.len() != wanted.len() {
        return false;
    }
    for (found, (numbers, old, new)) in list.iter().zip(wanted) {
        if !is_row_of(&found.row, *numbers)
            || found.old != ratio(*old)
            || found.new != ratio(*new)
        {
            return false;
        }
    }
    true
}
