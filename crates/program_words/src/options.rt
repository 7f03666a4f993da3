/// What the command line asks for.
#[derive(Clone, Copy, Debug, PartialEq, Eq)]
pub struct Options {
    /// Whether exact answers are open.
    pub curator: bool,
    /// The size of the demo that runs in place of the input, from 1 to 20, or `None` to read the input.
    pub demo: Option<u64>,
    /// The most bytes of input that the run takes, from 1 to 2^40, and 2^40 where no word says it.
    pub max_bytes: u64,
}
