//! Operators, key by key.
ghost use Rattle.std.specs.Prelude.{◌≡◌, ◌≢◌, ◌+◌, ◌↔◌, [], Bool, IfErr, OnErr, OnOk, false, length, true};
ghost use Rattle.datasets.specs.Dataset.{Dataset, at};
ghost use Rattle.datasets.specs.Entries.{Row};
ghost use Rattle.ratios.specs.Ratio.{zero_ratio};
ghost use Rattle.weighted_set.specs.Changes.{entries_of};
ghost use Rattle.weighted_set.specs.Held.{AllInRange};
ghost use Rattle.weighted_set.specs.Parts.{FactoredInRange, IsListed, listed, part_of};
ghost use Rattle.weighted_set.specs.declared.part_op.Side.{Side};
ghost use Rattle.weighted_set.specs.declared.part_op.Side.TheVariants.{Left, Right};
ghost use Rattle.weighted_set.specs.declared.part_op.OpFault.TheVariants as fault;

use crate::Memory;
use crate::weighted::Weighted;
use record_text::Row;
use std::sync::ledger::Ledger;
use steps::Steps;

/// An input of an operator. An operator of one input has it on the left.
#[derive(Clone, Copy, Debug, PartialEq, Eq)]
pub enum Side {
    Left,
    Right,
}

/// Why an operator has no answer.
#[derive(Clone, Copy, Debug, PartialEq, Eq)]
pub enum OpFault {
    /// A value that the operator passes through is out of range.
    Range,
    /// There was no memory.
    Memory,
}

impl From<Memory> for OpFault {
    ghost from_gives = { λ _ e. e ≡ fault.Memory };

    fn from(_e: Memory) -> OpFault {
        OpFault::Memory
    }
}

/// An operator that works one key at a time. An input row belongs to keys, by a factor other than 0 each;
/// the rows of a key, each with its weight times its factor, are the key's part, and each part gives output
/// rows of its own.
pub trait PartOp {
    /// The keys of an input row, with their factors.
    ghost keys: { Self → Side → Row → Dataset };

    /// The key that an output row comes from.
    ghost owner: { Self → Row → Row };

    /// The output rows of a key, from its part of either input.
    ghost outputs: { Self → Row → Dataset → Dataset → Dataset };

    /// No value that a key's part passes through is out of range.
    ghost part_fits: { Self → Row → Dataset → Dataset → Bool };

    /// The output of the operator.
    ghost output: { Self → Dataset → Dataset → Dataset };

    /// No value that the operator passes through is out of range.
    ghost fits: { Self → Dataset → Dataset → Bool };

    /// The operator takes these inputs.
    ghost takes: { Self → Dataset → Dataset → Bool };

    /// It takes this row on this side.
    ghost TakesRow: { Self → Side → Row → Type 0 };

    /// It takes these parts of this key.
    ghost TakesPart: { Self → Row → Dataset → Dataset → Type 0 };

    /// Lists the keys of an input row in row order, with their factors. `into` is emptied first.
    fn touch(&self, side: Side, row: &Row, into: &mut Vec<Weighted>) -> Result<(), Memory>
        requires { TakesRow self.now side row.now }
        ensures ok { OnOk result (entries_of into.new.items ≡ (keys self.now side row.now).entries) }
        ensures err { OnErr result (into.new.items ≡ []) };

    /// Lists the output rows of a key in row order, from its part of either input. `into` is emptied first.
    /// Each row of the parts is one step.
    fn part_out<L: Ledger>(
        &self,
        key: &Row,
        left: &[Weighted],
        right: &[Weighted],
        into: &mut Vec<Weighted>,
        steps: &mut Steps<L>,
    ) -> Result<(), OpFault>
        requires left_listed { IsListed left.now }
        requires right_listed { IsListed right.now }
        requires takes { TakesPart self.now key.now (listed left.now) (listed right.now) }
        ensures ok { OnOk result (entries_of into.new.items ≡ (outputs self.now key.now (listed left.now) (listed right.now)).entries) }
        ensures fits { OnOk result (part_fits self.now key.now (listed left.now) (listed right.now) ≡ true) }
        ensures range { IfErr result (λ e. e ≡ fault.Range → part_fits self.now key.now (listed left.now) (listed right.now) ≡ false) }
        ensures err { OnErr result (into.new.items ≡ []) }
        ensures steps { steps.new ≡ steps.old + (length left.now + length right.now) };

    /// Outputs of different keys are different rows.
    ghost outputs_are_owned: { (op : Self) (k : Row) (A B : Dataset) (z : Row) → TakesPart op k A B → at (outputs op k A B) z ≢ zero_ratio → owner op z ≡ k };

    /// All parts' outputs together are the operator's.
    ghost together: { (op : Self) (A B : Dataset) (z : Row) → takes op A B ≡ true → at (output op A B) z ≡ at (outputs op (owner op z) (part_of (keys op Left) (owner op z) A) (part_of (keys op Right) (owner op z) B)) z };

    /// Inputs with weights in range fit the operator just where each factored weight is in range and each part fits.
    ghost fits_by_part: { (op : Self) (A B : Dataset) → takes op A B ≡ true → AllInRange A → AllInRange B → (fits op A B ≡ true) ↔ (FactoredInRange (keys op Left) A × FactoredInRange (keys op Right) B × ((k : Row) → part_fits op k (part_of (keys op Left) k A) (part_of (keys op Right) k B) ≡ true)) };

    /// Where the inputs fit, the output's weights are in range.
    ghost output_in_range: { (op : Self) (A B : Dataset) → AllInRange A → AllInRange B → fits op A B ≡ true → AllInRange (output op A B) };

    /// It takes the rows of inputs that it takes.
    ghost takes_rows: { (op : Self) (A B : Dataset) (x : Row) → takes op A B ≡ true → (at A x ≢ zero_ratio → TakesRow op Left x) × (at B x ≢ zero_ratio → TakesRow op Right x) };

    /// It takes the parts of inputs that it takes.
    ghost takes_parts: { (op : Self) (A B : Dataset) (k : Row) → takes op A B ≡ true → TakesPart op k (part_of (keys op Left) k A) (part_of (keys op Right) k B) };
}
