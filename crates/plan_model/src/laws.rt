//! Laws of expressions and of plans.
ghost use Rattle.plan_model.specs.Laws.{AcceptedIsTyped, AcceptedUsesAreFew, MisfitIsFirst, NoMisfit, StepsAreOperators, ValuesHaveKinds};

/// An expression has a value on a row just where it has a kind over the row's kinds, and the value has
/// that kind.
pub fn law_values()
    ensures { ValuesHaveKinds }
{}

/// In an accepted plan, on datasets that keep the types of their sources, each step's rows have the
/// step's columns, and no weight is negative where the step's may not be.
pub fn law_typed()
    ensures { AcceptedIsTyped }
{}

/// The dataset of each step of a plan is what its operator makes of the datasets of the steps that it names.
pub fn law_evaluation()
    ensures { StepsAreOperators }
{}

/// A misfit is the first step that doesn't fit, and there is none exactly where every step fits.
pub fn law_misfit()
    ensures first { MisfitIsFirst }
    ensures none { NoMisfit }
{}

/// An accepted plan uses no source over 1,000,000 times.
pub fn law_uses()
    ensures { AcceptedUsesAreFew }
{}
