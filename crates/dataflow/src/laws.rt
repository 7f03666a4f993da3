//! Laws of evaluation.
ghost use Rattle.dataflow.specs.Laws.{EvalsAreOutputs};

/// The dataset of each step is the source's, or its operator's output from the datasets of its inputs.
pub fn law_evals()
    ensures { EvalsAreOutputs }
{}
