//! Tests of `plan_checker`.
ghost use Rattle.std.specs.Prelude.{◌<◌, length};

mod steps;

use plan_checker::{PlanFault, check, place_of};
use plan_model::{Plan, Reducer, SetKind, SourceTypes, What};
use record_text::{Kind, Kinds, Name};
use std::alloc::Global;
use std::test::Fail;
use steps::{Written, declare, plan_of};

// The columns of the sources `less` and `wide`.
const EIGHT: [Kind; 8] = [Kind::Int; 8];

const SIXTEEN: [Kind; 16] = [Kind::Int; 16];

// The sources of the plans: two of a number and a text, one of eight numbers, one of sixteen.
fn sources(alloc: Global) -> Result<SourceTypes, Fail> {
    let pair = Kinds::from_slice(&[Kind::Int, Kind::Text]);
    let rows = [
        ("people", pair, false),
        ("debts", pair, true),
        ("less", Kinds::from_slice(&EIGHT), true),
        ("wide", Kinds::from_slice(&SIXTEEN), true),
    ];
    let mut types = SourceTypes::new(alloc);
    for (name, kinds, signed) in rows {
        declare(&mut types, name, kinds, signed)?;
    }
    Ok(types)
}

// The fault of a step.
fn at(step: usize, what: What) -> Option<PlanFault> {
    Some(PlanFault::At { step, what })
}

// The fault of the plan of a source and these steps, if it has one.
fn fault_of(alloc: Global, name: &str, rest: &[Written]) -> Result<Option<PlanFault>, Fail> {
    let types = sources(alloc)?;
    let plan = plan_of(alloc, name, rest)?;
    Ok(check(alloc, &plan, &types).err())
}

type StepRow = (&'static str, Written, Option<PlanFault>);

// The first row whose plan, a source and a step, hasn't the fault beside it.
fn first_other_step(alloc: Global, rows: &[StepRow]) -> Result<Option<usize>, Fail> {
    for (i, (name, step, expected)) in rows.iter().enumerate() {
        if fault_of(alloc, name, &[*step])? != *expected {
            return Ok(Some(i));
        }
    }
    Ok(None)
}

#[test]
fn names_the_first_fault_of_a_step(rt: HostRuntime) -> Result<(), Fail> {
    let rows = [
        ("nobody", Written::Select(7, 1), at(0, What::UnknownSource)),
        ("people", Written::Select(1, 2), at(1, What::Column)),
        ("people", Written::Many(0, 2), at(1, What::Column)),
        ("people", Written::Many(0, 1), at(1, What::Kind)),
        ("people", Written::Filter(1), at(1, What::Kind)),
        (
            "debts",
            Written::Group(1, Reducer::Max(2)),
            at(1, What::Column),
        ),
        (
            "debts",
            Written::Group(1, Reducer::Sum(1)),
            at(1, What::Kind),
        ),
        (
            "wide",
            Written::Group(16, Reducer::Count),
            at(1, What::TooWide),
        ),
        (
            "debts",
            Written::Group(1, Reducer::Sum(0)),
            at(1, What::Negative),
        ),
        ("wide", Written::Shave, at(1, What::TooWide)),
        ("wide", Written::Join, at(1, What::TooWide)),
        ("wide", Written::Select(0, 16), None),
        ("less", Written::Join, None),
        ("less", Written::Shave, None),
    ];
    assert_eq!(rt; first_other_step(rt.alloc(), &rows)?, None);
    Ok(())
}

// The fault of a count of what a set operator makes of two sources.
fn fault_of_count(
    alloc: Global,
    left: &str,
    right: &'static str,
    kind: SetKind,
) -> Result<Option<PlanFault>, Fail> {
    let rest = [
        Written::Source(right),
        Written::Set(kind),
        Written::Group(1, Reducer::Count),
    ];
    fault_of(alloc, left, &rest)
}

#[test]
fn counts_what_cannot_be_negative(rt: HostRuntime) -> Result<(), Fail> {
    let rows = [
        ("people", "debts", SetKind::Union, None),
        ("people", "people", SetKind::Concat, None),
        ("people", "less", SetKind::Union, at(2, What::Kind)),
        ("debts", "debts", SetKind::Union, at(3, What::Negative)),
        ("debts", "people", SetKind::Intersect, at(3, What::Negative)),
        ("people", "debts", SetKind::Concat, at(3, What::Negative)),
        ("people", "people", SetKind::Except, at(3, What::Negative)),
    ];
    for (left, right, kind, expected) in rows {
        assert!(rt; fault_of_count(rt.alloc(), left, right, kind)? == expected);
    }
    Ok(())
}

// How often an accepted plan uses a source.
fn uses_of(alloc: Global, plan: &Plan, types: &SourceTypes, source: usize) -> Result<u64, PlanFault>
    requires { source < length types.now }
{
    let checked = check(alloc, plan, types)?;
    Ok(checked.uses(source))
}

#[test]
fn a_self_join_uses_its_source_twice(rt: HostRuntime) -> Result<(), Fail> {
    let types = sources(rt.alloc())?;
    let plan = plan_of(rt.alloc(), "less", &[Written::Join])?;
    let checked = check(rt.alloc(), &plan, &types)?;
    assert!(rt; checked.columns() == Kinds::from_slice(&SIXTEEN));
    assert!(rt; checked.may_be_negative());
    let name = Name::read(b"less").ok_or("no name")?;
    assert_eq!(rt; place_of(&name, &types), Some(2));
    assert!(rt; types.len() == 4);
    assert!(rt; uses_of(rt.alloc(), &plan, &types, 2) == Ok(2));
    assert!(rt; uses_of(rt.alloc(), &plan, &types, 3) == Ok(0));
    Ok(())
}

#[test]
fn uses_double_until_they_are_too_many(rt: HostRuntime) -> Result<(), Fail> {
    let types = sources(rt.alloc())?;
    let fault = PlanFault::At {
        step: 20,
        what: What::UsesOver,
    };
    assert!(rt; types.len() == 4);
    let doublings = [Written::Twice; 20];
    for (count, expected) in [(19, Ok(524288)), (20, Err(fault))] {
        let plan = plan_of(rt.alloc(), "people", &doublings[..count])?;
        assert_eq!(rt; uses_of(rt.alloc(), &plan, &types, 0), expected, "{count}");
    }
    Ok(())
}
