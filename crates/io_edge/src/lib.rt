//! Devices that count their faults: a source of bytes, a sink, noise and a shelf of files.
//!
//! The traits say what a device is. There are devices in memory, devices that never fail, adapters of readers and
//! writers, as the standard streams, and the shelf of the working folder.
#![tactic(auto)]

mod copy;
mod device;
mod failed;
mod folder_shelf;
mod mem_noise;
mod mem_shelf;
mod mem_sink;
mod mem_source;
mod path;
mod reader_source;
mod reading;
mod shelf_fault;
mod sure_noise;
mod sure_sink;
mod sure_source;
mod writer_sink;

pub use device::{Noise, Shelf, Sink, Source};
pub use failed::Failed;
pub use folder_shelf::FolderShelf;
pub use mem_noise::MemNoise;
pub use mem_shelf::MemShelf;
pub use mem_sink::MemSink;
pub use mem_source::MemSource;
pub use path::{MAX_PATH, is_path, law_path};
pub use reader_source::{ReaderSource, StdSource};
pub use reading::read_up_to;
pub use shelf_fault::ShelfFault;
pub use std::alloc::AllocError as Memory;
pub use sure_noise::SureNoise;
pub use sure_sink::SureSink;
pub use sure_source::SureSource;
pub use writer_sink::{StdSink, WriterSink};
