/// Why no more is read.
#[derive(Clone, Copy, Debug, PartialEq, Eq)]
pub enum Stop {
    InputEnd,
    ReadFault,
    WriteFault,
    OverLimit,
}
