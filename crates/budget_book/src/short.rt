/// A source of which more is asked than is left.
#[derive(Clone, Copy, Debug, PartialEq, Eq)]
pub struct Short {
    /// The source's place in the book.
    pub source: usize,
    /// What is left of its budget, in millionths of epsilon.
    pub left: u64,
    /// What is asked of it.
    pub asked: u64,
}
