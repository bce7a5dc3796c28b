//! A file in memory, and which file of a shelf is open.
ghost use Rattle.std.specs.Prelude.{◌≡◌, ◌≤◌, vec_capacity};

use std::alloc::{AllocError, Global};

/// A file of an in-memory shelf, and the most bytes that it can hold when it is written.
#[derive(Drop)]
pub struct MemFile {
    pub name: String,
    pub bytes: Vec<u8>,
    pub room: usize,
    ghost reserved: { room ≤ vec_capacity bytes },
}

/// Which file of an in-memory shelf is open, by its index.
#[derive(Clone, Copy)]
pub enum Activity {
    /// No file.
    Idle,
    /// A file is being read, and this many of its bytes were given.
    Reading { file: usize, at: usize },
    /// A file is being written.
    Writing { file: usize },
}
