//! Rows, weights, columns, items, pieces and expressions made of plain numbers, and compared with them: what tests of
//! sets, operators and graphs share.
#![tactic(auto)]

mod columns;
mod pieces;
mod values;

pub use columns::{have_columns, only_first_column, only_second_column, second_column, two_ints};
pub use pieces::{one_item, two_pieces};
pub use values::{
    Added, MOST, Shown, are_changes, are_shown, are_weights, is_row, pair, pair_fractions,
    pair_weights, ratio, row, row_of, weights, whole,
};
