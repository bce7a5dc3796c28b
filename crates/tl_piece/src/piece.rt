//! The buffer of a writer.
ghost use Rattle.std.specs.Prelude.{◌≡◌, ◌<◌, ◌≤◌, ◌↔◌, [], ◌∷◌, ◌++◌, IsTrue, length};

use arrayvec::ArrayVec;
use std::marker::Model;

/// The length of each piece of a text except the last.
pub(crate) const PIECE: usize = 4_096;

/// The bytes of a text that were not put yet, at most 4,096. They are stored in place, so no memory is allocated.
///
/// Contracts see a buffer as these bytes.
#[derive(Drop)]
pub struct WriteBuffer {
    bytes: ArrayVec<u8, PIECE>,
}

impl Model for WriteBuffer {
    ghost use Rattle.std.specs.Prelude.{List, ℕ};

    ghost Value = { List ℕ };

    ghost view = { λ piece. piece.bytes.items };
}

impl WriteBuffer {
    /// Creates an empty buffer.
    pub fn new() -> WriteBuffer
        ensures { result ≡ [] }
    {
        WriteBuffer {
            bytes: ArrayVec::new(),
        }
    }

    /// Removes all bytes.
    pub fn clear(&mut self)
        ensures { self.new ≡ [] }
    {
        self.bytes.clear();
    }

    // Returns whether one more byte fits.
    pub(crate) fn has_room(&self) -> bool
        ensures { IsTrue result ↔ length self.now < PIECE }
    {
        self.bytes.len() < PIECE
    }

    // Adds a byte.
    pub(crate) fn push(&mut self, byte: u8)
        requires { length self.old < PIECE }
        ensures { self.new ≡ self.old ++ byte ∷ [] }
    {
        self.bytes.push(byte);
    }

    // Returns the bytes.
    pub(crate) fn bytes(&self) -> &[u8]
        ensures { result.now ≡ self.now }
    {
        self.bytes.as_slice()
    }
}
