//! A file as a source of bytes.
ghost use Rattle.std.specs.Prelude.{◌≡◌, ◌+◌, ◌<◌, ◌≤◌, length, IfOk, OnOk, OnErr, None};
ghost use Rattle.io_edge.specs.Causes.{HasCause, capped};
ghost use Rattle.io_edge.specs.Known.{ReadOutcome};

use crate::on_lines::LineNoise;
use io_edge::{Failed, Source};
use std::fs::File;
use std::io::{self, BufReader, Read};

/// The file of numbers of noise, in the working folder.
pub const NOISE_FILE: &str = "wpinq.noise";

/// Noise from the lines of a file.
pub type FileNoise<'rt> = LineNoise<FileSource<'rt>>;

/// The bytes of a file, which is opened at the first read. A file that can't be opened is a fault at each read, and so
/// is any other error. It tells no bytes.
#[derive(Drop)]
pub struct FileSource<'rt> {
    rt: &'rt HostRuntime,
    path: &'static str,
    file: Option<BufReader<File>>,
    faults: u64,
}

impl<'rt> FileSource<'rt> {
    /// A source of the file at this path, which has not failed yet.
    pub fn new(rt: &'rt HostRuntime, path: &'static str) -> FileSource<'rt> {
        FileSource {
            rt,
            path,
            file: None,
            faults: 0,
        }
    }

    // Opens the file where it isn't open, and reads.
    fn read_open(&mut self, buf: &mut [u8]) -> io::Result<usize>
        ensures bound { IfOk result (λ n. n ≤ length buf.new) }
        ensures faults { self.new.faults ≡ self.old.faults }
    {
        if self.file.is_none() {
            let file = File::open(self.rt, self.path)?;
            self.file = Some(BufReader::new(self.rt.alloc(), file)?);
        }
        match &mut self.file {
            Some(file) => file.read(buf),
            None => Ok(0),
        }
    }
}

impl<'rt> Source for FileSource<'rt> {
    ghost left = { λ _. None };

    ghost faults = { λ s. s.faults };

    fn read(&mut self, buf: &mut [u8]) -> Result<usize, Failed>
        requires { 0 < length buf.old }
        ensures bound { IfOk result (λ n. n ≤ length buf.new) }
        ensures bytes { ReadOutcome None None result buf.new }
        ensures cause { HasCause self.old.faults self.new.faults result }

        ensures failed { OnErr result (self.new.faults ≡ capped (self.old.faults + 1)) }
        ensures quiet { OnOk result (self.new.faults ≡ self.old.faults) }
    {
        match self.read_open(buf) {
            Ok(count) => Ok(count),
            Err(_) => {
                self.faults = self.faults.saturating_add(1);
                Err(Failed)
            }
        }
    }
}
