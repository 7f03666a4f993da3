ghost use Rattle.std.specs.Prelude.{◌≡◌, ◌≢◌, ◌↔◌, ◌⊎◌, ◌+◌, ◌<◌, [], None, Err, IsTrue};
ghost use Rattle.std.specs.IoError.{error_kind};
ghost use Rattle.io_edge.specs.Causes.{ShelfHasCause, capped};
ghost use Rattle.io_edge.specs.Limits.{fetch_limit};
ghost use Rattle.io_edge.specs.Path.{is_path};
ghost use Rattle.io_edge.specs.Shelf.{FetchOutcome};

use crate::{Shelf, ShelfFault, read_up_to};
use std::fs::File;
use std::io::{Error, ErrorKind};
use std::str;

/// The files of the working folder and of folders in it. It tells nothing of their bytes.
///
/// A file is missing where opening finds none at the path, also where a part of the path is a file. A folder at
/// the path is a fault, and so is any other error than want of memory.
#[derive(Drop)]
pub struct FolderShelf<'rt> {
    rt: &'rt HostRuntime,
    faults: u64,
}

impl<'rt> FolderShelf<'rt> {
    /// The shelf of the working folder, which has not failed yet.
    pub fn new(rt: &'rt HostRuntime) -> FolderShelf<'rt>
        ensures { result.faults ≡ 0 }
    {
        FolderShelf { rt, faults: 0 }
    }
}

impl<'rt> Shelf for FolderShelf<'rt> {
    ghost files = { λ _. None };

    ghost faults = { λ s. s.faults };

    fn fetch(&mut self, path: &[u8], max: usize, into: &mut Vec<u8>) -> Result<(), ShelfFault>
        requires path { IsTrue (is_path path.now) }
        requires max { max < fetch_limit }
        ensures gives { FetchOutcome None path.now max result into.new.items }
        ensures cause { ShelfHasCause self.old.faults self.new.faults result }

        ensures failed { result ≡ Err ShelfFault.Failed → self.new.faults ≡ capped (self.old.faults + 1) }
        ensures quiet { result ≢ Err ShelfFault.Failed → self.new.faults ≡ self.old.faults }
    {
        into.clear();
        let answer = read_file(self.rt, path, max, into);
        if answer == Err(ShelfFault::Failed) {
            self.faults = self.faults.saturating_add(1);
        }
        answer
    }
}

// Puts the file at the path into the empty buffer.
fn read_file(
    rt: &HostRuntime,
    path: &[u8],
    max: usize,
    into: &mut Vec<u8>,
) -> Result<(), ShelfFault>
    requires path { IsTrue (is_path path.now) }
    requires max { max < fetch_limit }
    requires empty { into.old.items ≡ [] }
    ensures { FetchOutcome None path.now max result into.new.items }
{
    match str::from_utf8(path) {
        Ok(path) => match File::open(rt, path) {
            Ok(file) => read_up_to(file, max, into),
            Err(error) => Err(open_fault(&error)),
        },
        Err(_) => unreachable!(),
    }
}

// The fault of opening a file that failed so.
fn open_fault(error: &Error) -> ShelfFault
    ensures missing { (result ≡ ShelfFault.Missing)
        ↔ ((error_kind error.now ≡ ErrorKind.NotFound) ⊎ (error_kind error.now ≡ ErrorKind.NotADirectory)) }
    ensures memory { (result ≡ ShelfFault.Memory) ↔ (error_kind error.now ≡ ErrorKind.OutOfMemory) }
    ensures found { result ≢ ShelfFault.Long }
{
    match error.kind() {
        ErrorKind::NotFound | ErrorKind::NotADirectory => ShelfFault::Missing,
        ErrorKind::OutOfMemory => ShelfFault::Memory,
        _ => ShelfFault::Failed,
    }
}
