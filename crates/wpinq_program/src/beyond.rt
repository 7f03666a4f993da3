/// What a read past the limit found.
#[derive(Clone, Copy, Debug, PartialEq, Eq)]
pub enum Beyond {
    End,
    Fault,
    Byte,
}
