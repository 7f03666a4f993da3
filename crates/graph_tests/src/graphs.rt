//! Tests of graphs of plans.
ghost use Rattle.std.specs.Prelude.{◌≡◌, ◌++◌, ◌<◌, ◌∷◌, [], IfOk, OnOk, length, true};
ghost use Rattle.plan_model.specs.Evaluation.{dataset_at};
ghost use Rattle.weighted_set.specs.Changes.{AreChangesOf};
ghost use Rattle.flow_graph.specs.Fresh.{committed_family};
ghost use Rattle.trial_rows.specs.Columns.{two_ints};
ghost use Rattle.graph_tests.specs.Trials.{AreSettled, IsRunning, MayPut, no_set, put_at};

use flow_graph::{FlowGraph, GraphFault};
use plan_checker::{check, place_of};
use plan_model::{Plan, SourceType, SourceTypes, Step};
use record_text::{Name, Row};
use std::alloc::Global;
use std::marker::Brand;
use std::process::Abort;
use std::sync::ledger::{Blank, Ledger};
use std::test::Fail;
use steps::Steps;
use trial_rows::{
    MOST, have_columns, only_second_column, pair, pair_weights, row, second_column, two_ints, whole,
};
use weighted_set::{AddFault, Change, HeldSet, Memory, SourceSet, law_changes};

/// Sources, and the graph of a plan on them.
#[derive(Drop)]
pub struct Trial {
    pub types: SourceTypes,
    pub sources: SourceSet,
    pub graph: FlowGraph,
}

/// Declares a source of rows of two numbers, whose name is new.
pub fn declare(types: &mut SourceTypes, name: &[u8]) -> Result<Name, Fail>
    ensures { IfOk result (λ name. types.new ≡ types.old ++ record { name = name; kinds = two_ints; signed = true } ∷ []) }
{
    let name = Name::read(name).ok_or("no name")?;
    if place_of(&name, types).is_some() {
        return Err(Fail::from("no new name"));
    }
    let kinds = two_ints();
    let source_type = SourceType {
        name,
        kinds,
        signed: true,
    };
    types.push(source_type)?;
    Ok(name)
}

fn two_sets(alloc: Global) -> Result<SourceSet, Memory>
    ensures { IfOk result (λ sets. sets ≡ no_set ∷ no_set ∷ []) }
{
    let mut sets = SourceSet::new(alloc);
    sets.push(HeldSet::new(alloc))?;
    sets.push(HeldSet::new(alloc))?;
    Ok(sets)
}

// The second numbers of the rows of a source.
fn select_plan(alloc: Global, name: Name) -> Result<Plan, Memory> {
    let mut steps = Vec::new(alloc);
    steps.push(Step::Source { name })?;
    let row = only_second_column(alloc)?;
    steps.push(Step::Select { of: 0, row })?;
    Ok(Plan::from_steps(steps))
}

// The rows of the second source whose second number isn't 0. The first one is a step, but not its input.
fn filter_plan(alloc: Global, first: Name, second: Name) -> Result<Plan, Memory> {
    let mut steps = Vec::new(alloc);
    steps.push(Step::Source { name: first })?;
    steps.push(Step::Source { name: second })?;
    steps.push(Step::Filter {
        of: 1,
        test: second_column(),
    })?;
    Ok(Plan::from_steps(steps))
}

/// The graph of a plan on two sources without rows.
pub fn start<L: Ledger>(
    alloc: Global,
    plan: &Plan,
    types: SourceTypes,
    steps: &mut Steps<L>,
) -> Result<Trial, Fail>
    requires two { length types ≡ 2 }
    ensures { IfOk result (λ trial. IsRunning trial.graph trial.types trial.sources) }
{
    let sources = two_sets(alloc)?;
    let _checked = check(alloc, plan, &types)?;
    match FlowGraph::build(alloc, plan, &types, &sources, steps) {
        Ok(graph) => Ok(Trial {
            types,
            sources,
            graph,
        }),
        Err(_) => Err(Fail::from("no graph")),
    }
}

/// The changes that adding rows to a source makes.
pub fn changes_of(
    rt: &impl Abort,
    alloc: Global,
    trial: &Trial,
    at: usize,
    rows: &[(i64, i64, i64)],
) -> Result<Vec<Change>, AddFault>
    requires { IsRunning trial.now.graph trial.now.types trial.now.sources }
    ensures { IfOk result (λ changes. MayPut trial.now.types trial.now.sources at changes.items) }
{
    assert!(rt; at < trial.sources.len());
    assert!(rt; at < trial.types.len());
    let source_type = trial.types.at(at);
    assert!(rt; source_type.signed);
    let added = pair_weights(alloc, rows)?;
    let changes = trial.sources.at(at).changes_of(added.as_slice(), true)?;
    law_changes();
    assert!(rt; have_columns(changes.as_slice(), source_type.kinds));
    Ok(changes)
}

// Makes changes to what a set holds.
fn put(sources: &mut SourceSet, at: usize, changes: &[Change]) -> Result<(), AddFault>
    requires within { at < length sources.old }
    requires settled { AreSettled sources.old }
    requires changes { AreChangesOf changes.now (dataset_at (committed_family sources.old) at) }
    ensures settled { OnOk result (AreSettled sources.new) }
    ensures put { OnOk result (committed_family sources.new ≡ put_at (committed_family sources.old) at changes.now) }
{
    let set = sources.at_mut(at);
    set.prepare(changes)?;
    set.commit();
    Ok(())
}

/// Makes changes to a source, and then commits or drops what comes of it. Answers the step that doesn't fit.
pub fn follow<L: Ledger>(
    trial: &mut Trial,
    at: usize,
    changes: &[Change],
    is_kept: bool,
    steps: &mut Steps<L>,
) -> Result<Option<usize>, AddFault>
    requires running { IsRunning trial.old.graph trial.old.types trial.old.sources }
    requires changes { MayPut trial.old.types trial.old.sources at changes.now }
    ensures { OnOk result (IsRunning trial.new.graph trial.new.types trial.new.sources) }
{
    match trial.graph.prepare(at, changes, steps) {
        Ok(()) => {}
        Err(GraphFault::Range { step }) => return Ok(Some(step)),
        Err(GraphFault::Memory) => return Err(AddFault::Memory),
    }
    if !is_kept {
        trial.graph.abort();
        return Ok(None);
    }
    trial.graph.commit();
    put(&mut trial.sources, at, changes)?;
    Ok(None)
}

// Adds rows in turns; each has a source, rows, whether they are kept, the step that doesn't fit, and the weight of
// the row that is looked at.
fn run<L: Ledger>(
    rt: &impl Abort,
    alloc: Global,
    trial: &mut Trial,
    row: &Row,
    turns: &[(usize, &[(i64, i64, i64)], bool, Option<usize>, i64)],
    steps: &mut Steps<L>,
) -> Result<(), AddFault>
    requires { IsRunning trial.old.graph trial.old.types trial.old.sources }
{
    for (at, rows, is_kept, misfit, weight) in turns {
        let changes = changes_of(rt, alloc, trial, *at, rows)?;
        let found = follow(trial, *at, changes.as_slice(), *is_kept, steps)?;
        assert_eq!(rt; found, *misfit);
        assert_eq!(rt; trial.graph.weight(row, steps), whole(*weight));
    }
    Ok(())
}

// The graph of the second numbers of the rows of the first source.
fn start_select<L: Ledger>(alloc: Global, steps: &mut Steps<L>) -> Result<Trial, Fail>
    ensures { IfOk result (λ trial. IsRunning trial.graph trial.types trial.sources) }
{
    let mut types = SourceTypes::new(alloc);
    let first = declare(&mut types, b"first")?;
    let _second = declare(&mut types, b"second")?;
    let plan = select_plan(alloc, first)?;
    start(alloc, &plan, types, steps)
}

// The graph of the rows of the second source whose second number isn't 0.
fn start_filter<L: Ledger>(alloc: Global, steps: &mut Steps<L>) -> Result<Trial, Fail>
    ensures { IfOk result (λ trial. IsRunning trial.graph trial.types trial.sources) }
{
    let mut types = SourceTypes::new(alloc);
    let first = declare(&mut types, b"first")?;
    let second = declare(&mut types, b"second")?;
    let plan = filter_plan(alloc, first, second)?;
    start(alloc, &plan, types, steps)
}

// A sum that is out of range is refused at the second step.
fn follow_select<L: Ledger>(rt: &impl Abort, alloc: Global, blank: Blank) -> Result<(), Fail>
    requires name { blank.name ≡ L.name }
    requires parts { blank.parts ≡ L.parts }
    requires some { 0 < blank.parts }
{
    let turns: [(usize, &[(i64, i64, i64)], bool, Option<usize>, i64); 6] = [
        (0, &[(1, 7, MOST)], true, None, MOST),
        (0, &[(2, 7, 1)], true, Some(1), MOST),
        (0, &[(2, 7, 1)], true, Some(1), MOST),
        (0, &[(1, 7, -MOST)], true, None, 0),
        (0, &[(2, 7, 1)], true, None, 1),
        (0, &[(2, 7, 3)], false, None, 1),
    ];
    let mut steps: Steps<L> = Steps::new(blank);
    let row = row(alloc, 7)?;
    let mut trial = start_select(alloc, &mut steps)?;
    run(rt, alloc, &mut trial, &row, &turns, &mut steps)?;
    Ok(())
}

// The output follows the second source alone.
fn follow_filter<L: Ledger>(rt: &impl Abort, alloc: Global, blank: Blank) -> Result<(), Fail>
    requires name { blank.name ≡ L.name }
    requires parts { blank.parts ≡ L.parts }
    requires some { 0 < blank.parts }
{
    let turns: [(usize, &[(i64, i64, i64)], bool, Option<usize>, i64); 4] = [
        (0, &[(1, 7, 2)], true, None, 0),
        (1, &[(1, 7, 3), (1, 0, 5)], true, None, 3),
        (0, &[(1, 7, 5)], true, None, 3),
        (1, &[(1, 7, -1)], true, None, 2),
    ];
    let mut steps: Steps<L> = Steps::new(blank);
    let row = pair(alloc, 1, 7)?;
    let mut trial = start_filter(alloc, &mut steps)?;
    run(rt, alloc, &mut trial, &row, &turns, &mut steps)?;
    Ok(())
}

#[test]
fn a_refused_change_leaves_the_graph_as_it_was(rt: HostRuntime) -> Result<(), Fail> {
    follow_select::<Brand>(&rt, rt.alloc(), Blank::new(1))
}

#[test]
fn a_change_of_another_source_changes_nothing(rt: HostRuntime) -> Result<(), Fail> {
    follow_filter::<Brand>(&rt, rt.alloc(), Blank::new(1))
}
