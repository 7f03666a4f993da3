/// The device failed in this call.
#[derive(Clone, Copy, Debug, PartialEq, Eq)]
pub struct Failed;
