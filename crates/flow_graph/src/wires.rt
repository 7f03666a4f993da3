//! The wires of a plan.
ghost use Rattle.std.specs.Prelude.{◌≡◌, IfOk};
ghost use Rattle.flow_graph.specs.Steps.{plan_wires, wire_of};

use crate::Memory;
use dataflow::Wire;
use plan_checker::place_of;
use plan_model::{Plan, SourceTypes, Step};
use std::alloc::Global;

// Where the inputs of a step come from.
fn wire_of(types: &SourceTypes, step: &Step) -> Wire
    ensures { result ≡ wire_of types.now step.now }
{
    match step {
        Step::Source { name } => Wire::Source(place_of(name, types).unwrap_or(0)),
        Step::Filter { of, .. }
        | Step::Select { of, .. }
        | Step::Many { of, .. }
        | Step::Shave { of, .. }
        | Step::Group { of, .. } => Wire::Of {
            left: *of,
            right: None,
        },
        Step::Set { left, right, .. } | Step::Join { left, right, .. } => Wire::Of {
            left: *left,
            right: Some(*right),
        },
    }
}

/// Where the inputs of each step come from.
pub fn wires_of(alloc: Global, plan: &Plan, types: &SourceTypes) -> Result<Vec<Wire>, Memory>
    ensures { IfOk result (λ wires. wires.items ≡ plan_wires plan.now types.now) }
{
    let mut wires = Vec::new(alloc);
    for at in 0..plan.len() {
        wires.push(wire_of(types, plan.step(at)))?;
    }
    Ok(wires)
}
