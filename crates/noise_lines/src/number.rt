//! The number on a line.
ghost use Rattle.std.specs.Prelude.{◌≡◌};
ghost use Rattle.line_runs.specs.Lines.{without_cr};
ghost use Rattle.noise_lines.specs.Lines.{number_in, number_of};

use record_text::{Atom, AtomFault, Kind, atom_from_field};
use std::alloc::Global;

/// The number on a line without its LF: after one CR at its end is dropped, an optional sign and 1 to 19 digits whose
/// value an i64 holds.
pub fn number_on(alloc: Global, line: &[u8]) -> Option<i64>
    ensures { result ≡ number_of line.now }
{
    number_in(atom_from_field(alloc, without_cr(line), Kind::Int))
}

// The number that was read, if one was.
fn number_in(read: Result<Atom, AtomFault>) -> Option<i64>
    ensures { result ≡ number_in read }
{
    match read {
        Ok(Atom::Int(number)) => Some(number),
        _ => None,
    }
}

// The line without one CR at its end.
fn without_cr(line: &[u8]) -> &[u8]
    ensures { result.now ≡ without_cr line.now }
{
    match line {
        [front @ .., b'\r'] => front,
        line => line,
    }
}
