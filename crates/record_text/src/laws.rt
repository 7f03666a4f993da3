//! Laws of atoms, rows, kinds and names.
ghost use Rattle.std.specs.Cmp.{IsTotalOrder};
ghost use Rattle.record_text.specs.KindLists.{kinds_eq};
ghost use Rattle.record_text.specs.Laws.{DecidesEquality, PrefixFirst, RowReadsBack, TieIsEquality};
ghost use Rattle.record_text.specs.Names.{name_eq};
ghost use Rattle.record_text.specs.Order.{atom_cmp, atom_eq, row_cmp, row_eq};

/// Atoms and rows are totally ordered, only equal ones tie, and a proper prefix of a row comes before it.
pub fn law_order()
    ensures atoms { IsTotalOrder atom_cmp }
    ensures atoms_tie { TieIsEquality atom_cmp }
    ensures rows { IsTotalOrder row_cmp }
    ensures rows_tie { TieIsEquality row_cmp }
    ensures prefix { PrefixFirst }
{}

/// `==` of atoms, rows, lists of kinds and names holds exactly where they are the same.
pub fn law_equality()
    ensures atoms { DecidesEquality atom_eq }
    ensures rows { DecidesEquality row_eq }
    ensures kinds { DecidesEquality kinds_eq }
    ensures names { DecidesEquality name_eq }
{}

/// What a row is written as in JSON is read as that row.
pub fn law_rows_read_back()
    ensures { RowReadsBack }
{}
