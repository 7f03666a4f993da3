//! The list of rows or keys that are touched.
ghost use Rattle.std.specs.Prelude.{◌≡◌, ◌++◌, ◌∷◌, [], OnErr, OnOk};
ghost use Rattle.std.specs.Vec.{vec_capacity};

use crate::Memory;
use record_text::Row;

/// Notes a row as touched. After a refusal the list is unchanged, and so is the memory that it takes.
pub fn note(touched: &mut Vec<Row>, row: &Row) -> Result<(), Memory>
    ensures ok { OnOk result (touched.new.items ≡ touched.old.items ++ row.now ∷ []) }
    ensures err { OnErr result (touched.new.items ≡ touched.old.items) }
    ensures memory { OnErr result (vec_capacity touched.new ≡ vec_capacity touched.old) }
{
    let copy = row.try_copy()?;
    touched.reserve(1)?;
    touched.push_reserved(copy);
    Ok(())
}
