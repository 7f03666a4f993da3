/// What is asked of a source.
#[derive(Clone, Copy, Debug, PartialEq, Eq)]
pub struct Ask {
    /// The source's place in the book.
    pub source: usize,
    /// The amount, in millionths of epsilon, at most 10^15.
    pub amount: u64,
}
