//! Why the program stops before its end.
use std::alloc::AllocError;
use std::io;

/// Why the program stops before its end.
#[derive(Clone, Copy, Debug, thiserror::Error)]
pub enum StageStop {
    /// A stage refused what it was given.
    #[error("refused")]
    Refused,
    /// There is no memory.
    #[error("out of memory")]
    Memory,
    /// The output failed.
    #[error("write failed")]
    Outside,
}

impl From<AllocError> for StageStop {
    fn from(_: AllocError) -> StageStop {
        StageStop::Memory
    }
}

impl From<io::Error> for StageStop {
    fn from(_: io::Error) -> StageStop {
        StageStop::Outside
    }
}
