//! The requests of the operations: of each its fields in their order, then a field that it doesn't have, and last
//! its names.
ghost use Rattle.std.specs.Prelude.{◌≡◌, IfOk};
ghost use Rattle.serde_json.specs.View.{view, members_view};
ghost use Rattle.request_fields.specs.Gives.{Gives};
ghost use Rattle.request_text.specs.Requests.{IsWithinLimits, budget_in, drop_in, exact_in, load_in, measure_in, plan_in, source_in, sum_in, target_named, update_in};

use crate::op::{Op, fields};
use crate::plans::plan;
use messages::{Bytes, ReadFault, Request, Target, Thing};
use record_text::Name;
use request_fields::{
    boolean, flag, kinds, named, only_known, path_of, rows, text, thing, weights, whole,
};
use serde_json::{Map, Value};
use std::alloc::Global;

/// The greatest budget, in millionths of epsilon.
const MAX_BUDGET: u64 = 1_000_000_000_000_000;

/// The greatest epsilon of a measurement, in millionths.
const MAX_EPSILON: u64 = 1_000_000_000;

/// The sum of weights.
#[tactic(auto, unfolding(crate::specs::Requests::sum_in))]
pub fn sum(alloc: Global, value: &Value, members: &Map<String, Value>) -> Result<Request, ReadFault>
    ensures value { Gives result (sum_in (view value.now) (members_view members.now.entries)) }
    ensures limits { IfOk result IsWithinLimits }
{
    let weights = weights(alloc, value)?;
    only_known(alloc, members, fields(Op::Sum))?;
    Ok(Request::Sum { weights })
}

/// A new source.
#[tactic(auto, unfolding(crate::specs::Requests::source_in))]
pub fn source(
    alloc: Global,
    value: &Value,
    members: &Map<String, Value>,
) -> Result<Request, ReadFault>
    ensures value { Gives result (source_in (view value.now) (members_view members.now.entries)) }
    ensures limits { IfOk result IsWithinLimits }
{
    let text = text(alloc, value, "name")?;
    let kinds = kinds(alloc, value)?;
    let signed = boolean(alloc, value, "signed")?;
    let budget = whole(alloc, value, "budget", 0, MAX_BUDGET)?;
    only_known(alloc, members, fields(Op::Source))?;
    let name = named(alloc, "name", text)?;
    Ok(Request::Source {
        name,
        kinds,
        signed,
        budget,
    })
}

/// Weights to be added to a source.
#[tactic(auto, unfolding(crate::specs::Requests::update_in))]
pub fn update(
    alloc: Global,
    value: &Value,
    members: &Map<String, Value>,
) -> Result<Request, ReadFault>
    ensures value { Gives result (update_in (view value.now) (members_view members.now.entries)) }
    ensures limits { IfOk result IsWithinLimits }
{
    let source = text(alloc, value, "source")?;
    let csv = text(alloc, value, "csv")?;
    let header = flag(alloc, value, "header")?;
    only_known(alloc, members, fields(Op::Update))?;
    let source = named(alloc, "source", source)?;
    let csv = Bytes::from_vec(Vec::from_slice(alloc, csv.as_bytes())?);
    Ok(Request::Update {
        source,
        csv,
        header,
    })
}

/// Weights to be added to a source, from the file at a path.
#[tactic(auto, unfolding(crate::specs::Requests::load_in))]
pub fn load(
    alloc: Global,
    value: &Value,
    members: &Map<String, Value>,
) -> Result<Request, ReadFault>
    ensures value { Gives result (load_in (view value.now) (members_view members.now.entries)) }
    ensures limits { IfOk result IsWithinLimits }
{
    let source = text(alloc, value, "source")?;
    let path = text(alloc, value, "path")?;
    let header = flag(alloc, value, "header")?;
    only_known(alloc, members, fields(Op::Load))?;
    let source = named(alloc, "source", source)?;
    let path = path_of(alloc, path)?;
    Ok(Request::Load {
        source,
        path,
        header,
    })
}

/// A new plan.
#[tactic(auto, unfolding(crate::specs::Requests::plan_in))]
pub fn new_plan(
    alloc: Global,
    value: &Value,
    members: &Map<String, Value>,
) -> Result<Request, ReadFault>
    ensures value { Gives result (plan_in (view value.now) (members_view members.now.entries)) }
    ensures limits { IfOk result IsWithinLimits }
{
    let text = text(alloc, value, "name")?;
    let plan = plan(alloc, value)?;
    only_known(alloc, members, fields(Op::Plan))?;
    let name = named(alloc, "name", text)?;
    Ok(Request::Plan { name, plan })
}

/// A plan to be taken out.
#[tactic(auto, unfolding(crate::specs::Requests::drop_in))]
pub fn drop_plan(
    alloc: Global,
    value: &Value,
    members: &Map<String, Value>,
) -> Result<Request, ReadFault>
    ensures value { Gives result (drop_in (view value.now) (members_view members.now.entries)) }
    ensures limits { IfOk result IsWithinLimits }
{
    let text = text(alloc, value, "plan")?;
    only_known(alloc, members, fields(Op::Drop))?;
    let plan = named(alloc, "plan", text)?;
    Ok(Request::Drop { plan })
}

/// Rows to be measured in a plan's output.
#[tactic(auto, unfolding(crate::specs::Requests::measure_in))]
pub fn measure(
    alloc: Global,
    value: &Value,
    members: &Map<String, Value>,
) -> Result<Request, ReadFault>
    ensures value { Gives result (measure_in (view value.now) (members_view members.now.entries)) }
    ensures limits { IfOk result IsWithinLimits }
{
    let text = text(alloc, value, "plan")?;
    let rows = rows(alloc, value)?;
    let epsilon = whole(alloc, value, "epsilon", 1, MAX_EPSILON)?;
    only_known(alloc, members, fields(Op::Measure))?;
    let plan = named(alloc, "plan", text)?;
    Ok(Request::Measure {
        plan,
        rows,
        epsilon,
    })
}

/// Rows to be looked up in a source or a plan.
#[tactic(auto, unfolding(crate::specs::Requests::exact_in))]
pub fn exact(
    alloc: Global,
    value: &Value,
    members: &Map<String, Value>,
) -> Result<Request, ReadFault>
    ensures value { Gives result (exact_in (view value.now) (members_view members.now.entries)) }
    ensures limits { IfOk result IsWithinLimits }
{
    let thing = thing(alloc, value)?;
    let field = thing.word();
    let text = text(alloc, value, field)?;
    let rows = rows(alloc, value)?;
    only_known(alloc, members, fields(Op::Exact))?;
    let name = named(alloc, field, text)?;
    Ok(Request::Exact {
        of: target_named(thing, name),
        rows,
    })
}

/// A source whose budget is to be told.
#[tactic(auto, unfolding(crate::specs::Requests::budget_in))]
pub fn budget(
    alloc: Global,
    value: &Value,
    members: &Map<String, Value>,
) -> Result<Request, ReadFault>
    ensures value { Gives result (budget_in (view value.now) (members_view members.now.entries)) }
    ensures limits { IfOk result IsWithinLimits }
{
    let text = text(alloc, value, "source")?;
    only_known(alloc, members, fields(Op::Budget))?;
    let source = named(alloc, "source", text)?;
    Ok(Request::Budget { source })
}

// The source or the plan of a name.
fn target_named(thing: Thing, name: Name) -> Target
    ensures { result ≡ target_named thing name }
{
    match thing {
        Thing::Source => Target::Source(name),
        Thing::Plan => Target::Plan(name),
    }
}
