//! The operators of steps.
ghost use Rattle.flow_graph.specs.NodesBy.{node_by, node_keeps_range};

use engines::Keyed;
use op_groupby::GroupOp;
use op_join::JoinOp;
use op_linear::{FilterOp, ManyOp, SelectOp};
use op_setwise::SetOp;
use op_shave::ShaveOp;
use std::sync::ledger::Ledger;
use steps::Steps;
use weighted_set::{Change, OpFault, Operator};

/// What a step keeps. A source keeps nothing, and is never prepared.
#[derive(Drop)]
pub enum NodeOf<F, S, M, H, E, J, G> {
    Source,
    Filter(F),
    Select(S),
    Many(M),
    Shave(H),
    Set(E),
    Join(J),
    Group(G),
}

/// What a step keeps.
pub type Node = NodeOf<
    Keyed<FilterOp>,
    Keyed<SelectOp>,
    Keyed<ManyOp>,
    Keyed<ShaveOp>,
    Keyed<SetOp>,
    Keyed<JoinOp>,
    Keyed<GroupOp>,
>;

impl<
    F: Operator,
    S: Operator,
    M: Operator,
    H: Operator,
    E: Operator,
    J: Operator,
    G: Operator,
> Operator for NodeOf<F, S, M, H, E, J, G> {
    ghost standing = { node_by F.standing S.standing M.standing H.standing E.standing J.standing G.standing };

    fn prepare<L: Ledger>(
        &mut self,
        left: &[Change],
        right: &[Change],
        out: &mut Vec<Change>,
        steps: &mut Steps<L>,
    ) -> Result<(), OpFault> {
        match self {
            NodeOf::Source => unreachable!(),
            NodeOf::Filter(keyed) => keyed.prepare(left, right, out, steps),
            NodeOf::Select(keyed) => keyed.prepare(left, right, out, steps),
            NodeOf::Many(keyed) => keyed.prepare(left, right, out, steps),
            NodeOf::Shave(keyed) => keyed.prepare(left, right, out, steps),
            NodeOf::Set(keyed) => keyed.prepare(left, right, out, steps),
            NodeOf::Join(keyed) => keyed.prepare(left, right, out, steps),
            NodeOf::Group(keyed) => keyed.prepare(left, right, out, steps),
        }
    }

    fn commit(&mut self) {
        match self {
            NodeOf::Source => {}
            NodeOf::Filter(keyed) => keyed.commit(),
            NodeOf::Select(keyed) => keyed.commit(),
            NodeOf::Many(keyed) => keyed.commit(),
            NodeOf::Shave(keyed) => keyed.commit(),
            NodeOf::Set(keyed) => keyed.commit(),
            NodeOf::Join(keyed) => keyed.commit(),
            NodeOf::Group(keyed) => keyed.commit(),
        }
    }

    fn abort(&mut self) {
        match self {
            NodeOf::Source => {}
            NodeOf::Filter(keyed) => keyed.abort(),
            NodeOf::Select(keyed) => keyed.abort(),
            NodeOf::Many(keyed) => keyed.abort(),
            NodeOf::Shave(keyed) => keyed.abort(),
            NodeOf::Set(keyed) => keyed.abort(),
            NodeOf::Join(keyed) => keyed.abort(),
            NodeOf::Group(keyed) => keyed.abort(),
        }
    }

    ghost in_range = { node_keeps_range F.standing S.standing M.standing H.standing E.standing J.standing G.standing F.in_range S.in_range M.in_range H.in_range E.in_range J.in_range G.in_range };
}
