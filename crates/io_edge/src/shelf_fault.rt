/// Why a shelf didn't give a file.
#[derive(Clone, Copy, Debug, PartialEq, Eq)]
pub enum ShelfFault {
    /// The shelf failed in this call.
    Failed,
    /// The shelf has no file at the path.
    Missing,
    /// The file has more bytes than were asked for.
    Long,
    /// There is no memory to find the file or for its bytes.
    Memory,
}
