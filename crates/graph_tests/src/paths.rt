//! The paths of a graph of 100 edges that come and go one by one, against graphs built afresh.
ghost use Rattle.std.specs.Prelude.{◌≡◌, ◌<◌, IfOk, OnOk};
ghost use Rattle.plan_model.specs.Acceptance.{Accepts};
ghost use Rattle.graph_tests.specs.Trials.{IsRunning};

use crate::graphs::{Trial, changes_of, declare, follow, start};
use flow_graph::FlowGraph;
use plan_checker::check;
use plan_model::{Plan, SourceTypes};
use plan_reader::read_plan;
use serde_json::Value;
use std::alloc::Global;
use std::marker::Brand;
use std::process::Abort;
use std::sync::ledger::{Blank, Ledger};
use std::test::Fail;
use steps::Steps;
use trial_rows::{ratio, row_of};

/// The paths of two edges whose ends differ.
pub const PATHS: &str =
    "{\"format\":1,\"steps\":[{\"do\":\"source\",\"name\":\"first\"},{\"do\":\"join\",\"left\":0,\"right\":0,\"left_key\":[{\"col\":1}],\"right_key\":[{\"col\":0}]},{\"do\":\"where\",\"of\":1,\"if\":{\"call\":\"ne\",\"args\":[{\"col\":0},{\"col\":3}]}}]}";

// Some paths: of two steps in the ring, of a step and a chord, of two chords, and of a step back.
const SOME: [[i64; 4]; 4] = [[3, 4, 4, 5], [3, 4, 4, 11], [3, 10, 10, 17], [4, 3, 3, 2]];

// Whether the graph has the weights that a graph has which is built afresh.
fn is_as_fresh<L: Ledger>(
    alloc: Global,
    plan: &Plan,
    trial: &Trial,
    steps: &mut Steps<L>,
) -> Result<bool, Fail>
    requires running { IsRunning trial.now.graph trial.now.types trial.now.sources }
{
    let _checked = check(alloc, plan, &trial.types)?;
    let Ok(fresh) = FlowGraph::build(alloc, plan, &trial.types, &trial.sources, steps) else {
        return Err(Fail::from("no graph"));
    };
    for numbers in &SOME {
        let row = row_of(alloc, numbers)?;
        if fresh.weight(&row, steps) != trial.graph.weight(&row, steps) {
            return Ok(false);
        }
    }
    Ok(true)
}

/// Adds a weight to an edge of the graph.
pub fn put_edge<L: Ledger>(
    rt: &impl Abort,
    alloc: Global,
    trial: &mut Trial,
    edge: (i64, i64, i64),
    steps: &mut Steps<L>,
) -> Result<(), Fail>
    requires { IsRunning trial.old.graph trial.old.types trial.old.sources }
    ensures { OnOk result (IsRunning trial.new.graph trial.new.types trial.new.sources) }
{
    let changes = changes_of(rt, alloc, trial, 0, &[edge])?;
    let misfit = follow(trial, 0, changes.as_slice(), true, steps)?;
    assert_eq!(rt; misfit, None);
    Ok(())
}

// Adds a weight to each edge of a ring of 50 nodes, from a node to the one so far on.
fn put_ring<L: Ledger>(
    rt: &impl Abort,
    alloc: Global,
    plan: &Plan,
    trial: &mut Trial,
    reach: u32,
    weight: i64,
    steps: &mut Steps<L>,
) -> Result<(), Fail>
    requires running { IsRunning trial.old.graph trial.old.types trial.old.sources }
    requires near { reach < 50 }
    ensures { OnOk result (IsRunning trial.new.graph trial.new.types trial.new.sources) }
{
    for node in 0..50u32 {
        let edge = (i64::from(node), i64::from((node + reach) % 50), weight);
        put_edge(rt, alloc, trial, edge, steps)?;
        if node % 10 == 9 {
            assert_eq!(rt; is_as_fresh(alloc, plan, trial, steps)?, true);
        }
    }
    Ok(())
}

// Ties each node to the next and to the seventh after it, and takes the ties to the next away.
fn follow_paths<L: Ledger>(rt: &impl Abort, alloc: Global, blank: Blank) -> Result<(), Fail>
    requires name { blank.name ≡ L.name }
    requires parts { blank.parts ≡ L.parts }
    requires some { 0 < blank.parts }
{
    let mut steps: Steps<L> = Steps::new(blank);
    let mut types = SourceTypes::new(alloc);
    let _first = declare(&mut types, b"first")?;
    let _second = declare(&mut types, b"second")?;
    let value = Value::from_str(alloc, PATHS)?;
    let plan = read_plan(alloc, &value)?;
    let mut trial = start(alloc, &plan, types, &mut steps)?;
    put_ring(rt, alloc, &plan, &mut trial, 1, 1, &mut steps)?;
    put_ring(rt, alloc, &plan, &mut trial, 7, 1, &mut steps)?;
    let chord = row_of(alloc, &SOME[1])?;
    assert_eq!(rt; trial.graph.weight(&chord, &mut steps), ratio((1, 4)));
    put_ring(rt, alloc, &plan, &mut trial, 1, -1, &mut steps)?;
    assert_eq!(rt; trial.graph.weight(&chord, &mut steps), ratio((0, 1)));
    let chords = row_of(alloc, &SOME[2])?;
    assert_eq!(rt; trial.graph.weight(&chords, &mut steps), ratio((1, 2)));
    Ok(())
}

#[test]
fn paths_of_a_graph_are_as_if_it_were_built_afresh(rt: HostRuntime) -> Result<(), Fail> {
    follow_paths::<Brand>(&rt, rt.alloc(), Blank::new(1))
}
