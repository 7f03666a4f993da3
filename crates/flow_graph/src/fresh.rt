//! What the steps of a plan keep while its sources have no rows.
ghost use Rattle.std.specs.Prelude.{◌≡◌, IfOk, IsTrue, [], length, nat_le, true};
ghost use Rattle.plan_model.specs.Acceptance.{matches_kinds, reads_columns};
ghost use Rattle.plan_model.specs.Inputs.{of_left, of_right};
ghost use Rattle.plan_model.specs.Limits.{is_step};
ghost use Rattle.plan_model.specs.Sizes.{max_width};
ghost use Rattle.plan_model.specs.Types.{output_columns};
ghost use Rattle.flow_graph.specs.Fresh.{AreFresh, IsFresh};
ghost use Rattle.flow_graph.specs.Nodes.{node_standing};
ghost use Rattle.flow_graph.specs.Plans.{IsKept};
ghost use Rattle.flow_graph.specs.Steps.{plan_meanings, step_meaning};

use crate::Memory;
use crate::node::{Node, NodeOf};
use engines::Keyed;
use op_groupby::GroupOp;
use op_join::JoinOp;
use op_linear::{FilterOp, ManyOp, SelectOp};
use op_setwise::SetOp;
use op_shave::ShaveOp;
use plan_checker::columns_of;
use plan_model::{Plan, SourceTypes, Step};
use record_text::Kinds;
use std::alloc::Global;

// What a step keeps while its inputs have no rows, from the columns of the steps before.
fn node_of(alloc: Global, step: &Step, columns: &[Kinds]) -> Result<Node, Memory>
    requires step { IsTrue (is_step (length columns.now) step.now) }
    requires columns { reads_columns step.now (of_left [] columns.now step.now) (of_right [] columns.now step.now) ≡ true }
    requires kinds { matches_kinds step.now (of_left [] columns.now step.now) (of_right [] columns.now step.now) ≡ true }
    requires narrow { nat_le (length (output_columns step.now (of_left [] columns.now step.now) (of_right [] columns.now step.now))) max_width ≡ true }
    ensures { IfOk result (λ node. IsFresh (node_standing node) (step_meaning columns.now step.now)) }
{
    match step {
        Step::Filter { of, test } => {
            let test = test.try_copy(alloc)?;
            let filter = FilterOp::new(test, columns[*of]);
            Ok(NodeOf::Filter(Keyed::new(filter, alloc)))
        }
        Step::Select { of, row } => {
            let row = row.try_copy(alloc)?;
            let select = SelectOp::new(row, columns[*of], alloc);
            Ok(NodeOf::Select(Keyed::new(select, alloc)))
        }
        Step::Many { of, over, items } => {
            let items = items.try_copy(alloc)?;
            let many = ManyOp::new(*over, items, columns[*of], alloc);
            Ok(NodeOf::Many(Keyed::new(many, alloc)))
        }
        Step::Shave { of, runs } => {
            // Tells that the pieces are few.
            let _runs = runs.len();
            let runs = runs.try_copy(alloc)?;
            let shave = ShaveOp::new(runs, columns[*of]);
            Ok(NodeOf::Shave(Keyed::new(shave, alloc)))
        }
        Step::Set { kind, left, .. } => {
            let set = SetOp::new(*kind, columns[*left]);
            Ok(NodeOf::Set(Keyed::new(set, alloc)))
        }
        Step::Join {
            left,
            right,
            left_key,
            right_key,
        } => {
            let left_key = left_key.try_copy(alloc)?;
            let right_key = right_key.try_copy(alloc)?;
            let join = JoinOp::new(left_key, right_key, columns[*left], columns[*right], alloc);
            Ok(NodeOf::Join(Keyed::new(join, alloc)))
        }
        Step::Group { of, key, reduce } => {
            let key = key.try_copy(alloc)?;
            let group = GroupOp::new(key, *reduce, columns[*of]);
            Ok(NodeOf::Group(Keyed::new(group, alloc)))
        }
        Step::Source { .. } => Ok(NodeOf::Source),
    }
}

/// What the steps of a plan keep while its sources have no rows.
pub fn nodes_of(alloc: Global, plan: &Plan, types: &SourceTypes) -> Result<Vec<Node>, Memory>
    requires { IsKept plan.now types.now }
    ensures { IfOk result (λ nodes. AreFresh node_standing nodes.items (plan_meanings plan.now types.now)) }
{
    let mut columns = Vec::new(alloc);
    let mut nodes = Vec::new(alloc);
    for at in 0..plan.len() {
        let step = plan.step(at);
        let node = node_of(alloc, step, columns.as_slice())?;
        nodes.push(node)?;
        let cols = columns_of(types, step, columns.as_slice());
        columns.push(cols)?;
    }
    Ok(nodes)
}
