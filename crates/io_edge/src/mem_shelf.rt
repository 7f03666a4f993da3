ghost use Rattle.std.specs.Prelude.{◌≡◌, ◌≢◌, ◌+◌, ◌<◌, ◌≤◌, ◌↔◌, ◌++◌, ◌∷◌, [], List, ℕ, filter, map, nat_eq, not, vec_capacity, vec_len, MatchOption, Some, None, Err, IsSome, OnOk, OnErr, Contains};
ghost use Rattle.std.specs.Cmp.Lexicographic.{pointwise};
ghost use Rattle.io_edge.specs.Causes.{ShelfHasCause, capped};
ghost use Rattle.io_edge.specs.Limits.{fetch_limit};
ghost use Rattle.io_edge.specs.Shelf.{FetchOutcome, file_at, with_file};

use crate::{Memory, Shelf, ShelfFault};
use std::alloc::Global;
use std::marker::Model;

// The bytes of a file, and its path.
#[derive(Drop)]
struct File {
    path: Vec<u8>,
    bytes: Vec<u8>,
}

/// A shelf in memory, which takes any bytes as a path. It fails at the calls whose numbers, from 0, are listed.
#[derive(Drop)]
pub struct MemShelf {
    files: Vec<File>,
    fails: Vec<u64>,
    calls: u64,
    faults: u64,
}

impl Model for MemShelf {
    ghost use Rattle.std.specs.Prelude.{map};
    ghost use Rattle.io_edge.specs.Devices.{MemoryShelf};

    ghost Value = { MemoryShelf };

    ghost view = { λ s. record {
      files = map (λ file. (file.path.items, file.bytes.items)) s.files.items;
      fails = s.fails.items;
      calls = s.calls;
      faults = s.faults;
    } };
}

impl MemShelf {
    /// A shelf without files, which never fails.
    pub fn new(alloc: Global) -> MemShelf
        ensures { result ≡ record { files = []; fails = []; calls = 0; faults = 0 } }
    {
        MemShelf {
            files: Vec::new(alloc),
            fails: Vec::new(alloc),
            calls: 0,
            faults: 0,
        }
    }

    /// Puts a file with these bytes at the path, in place of one that is there.
    pub fn put(&mut self, path: &[u8], bytes: Vec<u8>) -> Result<(), Memory>
        ensures ok { OnOk result (self.new
            ≡ record self.old { files = with_file self.old.files path.now bytes.items }) }
        ensures here { OnOk result (file_at self.new.files path.now ≡ Some bytes.items) }
        ensures others { OnOk result ((other : List ℕ) → other ≢ path.now
            → file_at self.new.files other ≡ file_at self.old.files other) }
        ensures err { OnErr result (self.new ≡ self.old) }
    {
        let alloc = *self.files.allocator();
        let copy = path.to_vec(alloc)?;
        self.files.reserve(1)?;
        remove(&mut self.files, path);
        self.files.push(File { path: copy, bytes }).unwrap();
        Ok(())
    }

    /// Lets the call with this number, from 0, fail.
    pub fn fail_at(&mut self, call: u64) -> Result<(), Memory>
        ensures ok { OnOk result (self.new ≡ record self.old { fails = self.old.fails ++ call ∷ [] }) }
        ensures err { OnErr result (self.new ≡ self.old) }
    {
        self.fails.push(call)?;
        Ok(())
    }
}

// Takes the files at the path away.
fn remove(files: &mut Vec<File>, path: &[u8])
    ensures others { files.new.items
        ≡ filter (λ file. not (pointwise nat_eq file.path.items path.now)) files.old.items }
    ensures bound { vec_len files.new ≤ vec_len files.old }
    ensures capacity { vec_capacity files.new ≡ vec_capacity files.old }
{
    files.retain(|file| !is_at(file, path));
}

fn is_at(file: &File, path: &[u8]) -> bool
    ensures { result ≡ pointwise nat_eq file.now.path.items path.now }
{
    file.path.as_slice() == path
}

// The bytes of the first file at the path.
fn find<'a>(files: &'a [File], path: &[u8]) -> Option<&'a [u8]>
    ensures { let known = map (λ file. (file.path.items, file.bytes.items)) files.now in
        MatchOption result (file_at known path.now ≡ None) (λ bytes. file_at known path.now ≡ Some bytes.now) }
{
    for file in files {
        if file.path.as_slice() == path {
            return Some(&file.bytes);
        }
    }
    None
}

impl Shelf for MemShelf {
    ghost files = { λ s. Some s.files };

    ghost faults = { λ s. s.faults };

    fn fetch(&mut self, path: &[u8], max: usize, into: &mut Vec<u8>) -> Result<(), ShelfFault>
        requires { max < fetch_limit }
        ensures gives { FetchOutcome (Some self.old.files) path.now max result into.new.items }
        ensures kept { self.new.files ≡ self.old.files }
        ensures cause { ShelfHasCause self.old.faults self.new.faults result }

        ensures fails { (result ≡ Err ShelfFault.Failed) ↔ Contains self.old.fails self.old.calls }
        ensures memory { result ≡ Err ShelfFault.Memory → IsSome (file_at self.old.files path.now) }
        ensures failed { result ≡ Err ShelfFault.Failed
            → self.new ≡ record self.old {
              calls = capped (self.old.calls + 1);
              faults = capped (self.old.faults + 1);
            } }
        ensures quiet { result ≢ Err ShelfFault.Failed
            → self.new ≡ record self.old { calls = capped (self.old.calls + 1) } }
    {
        into.clear();
        let call = self.calls;
        self.calls = self.calls.saturating_add(1);
        if self.fails.contains(&call) {
            self.faults = self.faults.saturating_add(1);
            return Err(ShelfFault::Failed);
        }
        match find(&self.files, path) {
            None => Err(ShelfFault::Missing),
            Some(bytes) if bytes.len() <= max => match into.extend_from_slice(bytes) {
                Ok(()) => Ok(()),
                Err(_) => Err(ShelfFault::Memory),
            },
            Some(bytes) => match into.extend_from_slice(&bytes[..max + 1]) {
                Ok(()) => Err(ShelfFault::Long),
                Err(_) => Err(ShelfFault::Memory),
            },
        }
    }
}
