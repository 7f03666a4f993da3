//! How the steps of a plan lead to each other.

/// Where a step's inputs come from.
#[derive(Clone, Copy, Debug)]
pub enum Wire {
    /// The step is the source at this place.
    Source(usize),
    /// It has the outputs of one or two earlier steps as its inputs.
    Of { left: usize, right: Option<usize> },
}
