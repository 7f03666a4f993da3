//! What the graph of the paths in a triangle keeps, and that nothing is kept besides.
ghost use Rattle.std.specs.Prelude.{◌≡◌, ◌<◌, IfOk};
ghost use Rattle.graph_tests.specs.Trials.{IsRunning};

use crate::graphs::{Trial, declare, start};
use crate::paths::{PATHS, put_edge};
use flow_graph::{FlowGraph, Keyed, Node, NodeOf};
use plan_model::SourceTypes;
use plan_reader::read_plan;
use serde_json::Value;
use std::alloc::Global;
use std::marker::Brand;
use std::process::Abort;
use std::sync::ledger::{Blank, Ledger};
use std::test::Fail;
use steps::Steps;
use trial_rows::{ratio, row_of};
use weighted_set::{PartOp, PartStore};

// Both directions of the triangle 1, 2, 3.
const TRIANGLE: [(i64, i64, i64); 6] = [
    (1, 2, 1),
    (1, 3, 1),
    (2, 1, 1),
    (2, 3, 1),
    (3, 1, 1),
    (3, 2, 1),
];

// What an operator by key keeps are two stores.
fn stores_in<O: PartOp>(keyed: &Keyed<O>) -> usize {
    let (_op, left, right) = keyed.kept();
    let _left: &PartStore = left;
    let _right: &PartStore = right;
    2
}

// How many stores a node keeps. A further kind of node doesn't compile.
fn stores_of(node: &Node) -> usize {
    match node {
        NodeOf::Source => 0,
        NodeOf::Filter(keyed) => stores_in(keyed),
        NodeOf::Select(keyed) => stores_in(keyed),
        NodeOf::Many(keyed) => stores_in(keyed),
        NodeOf::Shave(keyed) => stores_in(keyed),
        NodeOf::Set(keyed) => stores_in(keyed),
        NodeOf::Join(keyed) => stores_in(keyed),
        NodeOf::Group(keyed) => stores_in(keyed),
    }
}

// The numbers of stores that the nodes of a graph keep.
fn stores_by_node(alloc: Global, graph: &FlowGraph) -> Result<Vec<usize>, Fail> {
    let (nodes, _out) = graph.kept();
    let mut counts = Vec::new(alloc);
    for node in nodes {
        counts.push(stores_of(node))?;
    }
    Ok(counts)
}

// The graph of the paths in a triangle.
fn start_triangle<L: Ledger>(
    rt: &impl Abort,
    alloc: Global,
    steps: &mut Steps<L>,
) -> Result<Trial, Fail>
    ensures { IfOk result (λ trial. IsRunning trial.graph trial.types trial.sources) }
{
    let mut types = SourceTypes::new(alloc);
    let _first = declare(&mut types, b"first")?;
    let _second = declare(&mut types, b"second")?;
    let value = Value::from_str(alloc, PATHS)?;
    let plan = read_plan(alloc, &value)?;
    let mut trial = start(alloc, &plan, types, steps)?;
    for edge in &TRIANGLE {
        put_edge(rt, alloc, &mut trial, *edge, steps)?;
    }
    Ok(trial)
}

// The edge from 1 to 3 goes, and with it half of what 2, 3, 1 shared at 3.
fn follow_edge<L: Ledger>(rt: &impl Abort, alloc: Global, blank: Blank) -> Result<(), Fail>
    requires name { blank.name ≡ L.name }
    requires parts { blank.parts ≡ L.parts }
    requires some { 0 < blank.parts }
{
    let mut steps: Steps<L> = Steps::new(blank);
    let mut trial = start_triangle(rt, alloc, &mut steps)?;
    let kept = row_of(alloc, &[2, 3, 3, 1])?;
    let gone = row_of(alloc, &[1, 3, 3, 2])?;
    assert_eq!(rt; trial.graph.weight(&kept, &mut steps), ratio((1, 4)));
    put_edge(rt, alloc, &mut trial, (1, 3, -1), &mut steps)?;
    assert_eq!(rt; trial.graph.weight(&kept, &mut steps), ratio((1, 3)));
    assert_eq!(rt; trial.graph.weight(&gone, &mut steps), ratio((0, 1)));
    let stores = stores_by_node(alloc, &trial.graph)?;
    assert_eq!(rt; stores.as_slice(), [0usize, 2, 2].as_slice());
    Ok(())
}

#[test]
fn only_stores(rt: HostRuntime) -> Result<(), Fail> {
    follow_edge::<Brand>(&rt, rt.alloc(), Blank::new(1))
}
