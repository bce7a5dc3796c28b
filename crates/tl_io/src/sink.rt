//! The trait of sinks of bytes.
ghost use Rattle.std.specs.Prelude.{◌-◌, ◌^◌, ◌≤◌};
ghost use Rattle.tl_io.specs.Sink.{SinkSeen, IsPut};

use crate::Failed;

/// Takes bytes.
pub trait Sink {
    /// The value that contracts see.
    ghost seen: { Self → SinkSeen };

    /// Appends the piece, and changes nothing else.
    ///
    /// # Errors
    /// `Failed` if not all of the piece was taken. A prefix of it is appended that is shorter than the piece, so an empty
    /// piece never fails. The count of faults rose.
    fn put(&mut self, piece: &[u8]) -> Result<(), Failed>
        ensures { IsPut (seen self.old) piece.now (seen self.new) result };

    /// The count is at most 2^64 - 1.
    ghost faults_end: { (sink : Self) → (seen sink).faults ≤ 2 ^ 64 - 1 };
}
