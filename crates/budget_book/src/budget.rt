/// The budget of a source, in millionths of epsilon.
#[derive(Clone, Copy)]
pub struct Budget {
    /// How much may be spent.
    pub total: u64,
    /// How much is spent.
    pub spent: u64,
}
