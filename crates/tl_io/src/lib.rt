//! Input and output of the flow: a shelf of files, a sink of bytes and a port of configuration bits.
//!
//! The flow reads, writes and configures only through three traits:
//!
//! - A [`Shelf`] has files by name. It reads or writes one file at a time, in pieces.
//! - A [`Sink`] takes bytes, one piece after another.
//! - A [`ConfigPort`] takes configuration bits, each with its address.
//!
//! A call that fails returns [`Failed`], which carries no further information.
//!
//! Each object has a count of faults that never falls. A shelf has two: one of reads and one of writes. A count rose
//! if it grew, or if it is at its last value, 2^64 - 1. A call returns `Failed` only if its count rose, so every fault
//! that a caller reports has a cause (`specs/Causes.antt`).
//!
//! Some objects tell their content and some don't. A clause on content applies only to objects that tell it
//! (`specs/Content.antt`, `specs/Shelf.antt`, `specs/Port.antt`).
//!
//! | Object | Stands for | Content |
//! |---|---|---|
//! | [`MemShelf`], [`MemSink`], [`MemPort`] | objects in memory for tests and simulations; they fail at chosen calls | told |
//! | [`DiskShelf`], [`StdSink`], [`FilePort`] | files and streams of the operating system | not told |
//! | [`FileSink`] | the file that a shelf is writing, as a sink | as the shelf |
//!
//! If writing a piece fails, a prefix of the piece was written that is shorter than the piece. So writing an empty piece
//! never fails.
#![tactic(auto)]

mod boxed_port;
mod disk_shelf;
mod fault_plan;
mod file_id;
mod file_ids;
mod file_port;
mod file_sink;
mod inner_write;
mod mem_file;
mod mem_files;
mod mem_port;
mod mem_shelf;
mod mem_sink;
mod port;
mod read_error;
mod shelf;
mod shelf_counts;
mod sink;
mod std_sink;
mod sync_counts;
mod told_name;
mod whole_file;

pub use disk_shelf::DiskShelf;
pub use file_id::FileId;
pub use file_port::{FilePort, PORT_FILES};
pub use file_sink::FileSink;
pub use mem_port::MemPort;
pub use mem_shelf::MemShelf;
pub use mem_sink::MemSink;
pub use port::ConfigPort;
pub use read_error::Slurp;
pub use shelf::Shelf;
pub use sink::Sink;
pub use std_sink::StdSink;
pub use whole_file::slurp;

/// The error of every call of these traits.
#[derive(Clone, Copy, Debug, PartialEq, Eq, thiserror::Error)]
#[error("the call failed")]
pub struct Failed;

/// A write of a configuration bit.
#[derive(Clone, Copy, Debug, PartialEq, Eq)]
pub struct Write {
    /// The number of the bit in the configuration, from 0.
    pub address: u32,
    /// Its value.
    pub bit: bool,
}

/// A new value of a parameter.
#[derive(Clone, Copy, Debug, PartialEq, Eq)]
pub struct Assign {
    /// The number of the parameter, from 0.
    pub param: u16,
    /// Its value.
    pub bit: bool,
}
