//! Tests of `line_runs`.
ghost use Rattle.std.specs.Prelude.{◌≡◌, []};

use line_runs::{Machine, law_pieces, law_runs};

// A machine without a state of its own, which repeats each line.
struct Echo;

impl Machine for Echo {
    ghost answers = { λ old line given reply new. (given ≡ []) × (reply ≡ line) };
}

#[test]
fn laws_hold_of_a_machine() {
    law_pieces();
    law_runs::<Echo>();
}
