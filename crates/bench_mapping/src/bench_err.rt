//! Why there are no figures.
use std::alloc::{AllocError, AllocFailed};
use std::io;

/// Why there are no figures.
#[derive(Drop)]
pub enum BenchErr {
    /// A usage error.
    Words,
    /// A file could not be read.
    File,
    /// A stage refused its input, or ran out of memory.
    Refused,
    /// Out of memory.
    Memory,
    /// The clock or the output failed.
    Outside,
}

impl From<AllocError> for BenchErr {
    fn from(_: AllocError) -> BenchErr {
        BenchErr::Memory
    }
}

impl<T: Drop> From<AllocFailed<T>> for BenchErr {
    fn from(_: AllocFailed<T>) -> BenchErr {
        BenchErr::Memory
    }
}

impl From<io::Error> for BenchErr {
    fn from(_: io::Error) -> BenchErr {
        BenchErr::Outside
    }
}
