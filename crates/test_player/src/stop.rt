//! Why a text can't be played.
use std::alloc::{AllocError, AllocFailed};

/// Why a text can't be played to its end.
#[derive(Clone, Copy)]
pub enum PlayStop {
    /// A line of the text, by its number, and why it can't be read.
    Unread(u32, &'static str),
    Memory,
}

impl PlayStop {
    /// The same stop, at this line unless it has one.
    pub fn at(self, line: u32) -> PlayStop {
        match self {
            PlayStop::Unread(0, why) => PlayStop::Unread(line, why),
            stop => stop,
        }
    }
}

impl From<AllocError> for PlayStop {
    fn from(_: AllocError) -> PlayStop {
        PlayStop::Memory
    }
}

impl<T: Drop> From<AllocFailed<T>> for PlayStop {
    fn from(_: AllocFailed<T>) -> PlayStop {
        PlayStop::Memory
    }
}
