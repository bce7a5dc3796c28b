//! A sink over the file that a shelf is writing.
ghost use Rattle.std.specs.Prelude.{◌≡◌, ◌-◌, ◌^◌, ◌≤◌, IsTrue, Some};
ghost use Rattle.tl_io.specs.Shelf.{apart, written};

use crate::{Failed, Shelf, Sink};

/// A sink over a borrowed shelf. `put` pushes to the file that is being written.
#[derive(Drop)]
pub struct FileSink<'a, S: Shelf> {
    shelf: &'a mut S,
    ghost writing: { IsTrue (S.seen shelf.now).is_writing },
}

impl<'a, S: Shelf> FileSink<'a, S> {
    /// Creates a sink over a shelf that is writing a file.
    pub fn over(shelf: &'a mut S) -> FileSink<'a, S>
        requires { IsTrue (S.seen shelf.old).is_writing }
        ensures value { result.shelf.now ≡ shelf.entry.now }
        ensures same_borrow { result.shelf.ghost_name ≡ shelf.entry.ghost_name }
    {
        FileSink { shelf }
    }
}

impl<S: Shelf> Sink for FileSink<'_, S> {
    ghost seen = { λ sink. record { bytes = written (S.seen sink.shelf.now); faults = (S.seen sink.shelf.now).write_faults; through = Some sink.shelf.ghost_name; others = apart (S.seen sink.shelf.now) } };

    fn put(&mut self, piece: &[u8]) -> Result<(), Failed> {
        self.shelf.push(piece)
    }

    ghost faults_end = { λ sink. S.write_faults_end sink.shelf.now };
}
