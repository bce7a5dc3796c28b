//! A buffered writer over a sink.
ghost use Rattle.std.specs.Prelude.{◌<◌, [], ◌∷◌, length, replicate, decimal};
ghost use Rattle.tl_piece.specs.Added.{IsNew, IsAdded, IsFinished};

use crate::piece::{PIECE, WriteBuffer};
use itoa::Buffer;
use tl_io::{Failed, Sink};

/// A buffered writer over a borrowed sink.
///
/// Bytes that are added wait until a whole piece of them is there. After a failed put nothing more is put, and
/// [`Writer::finish`] returns the error.
#[derive(Drop)]
pub struct Writer<'a, O: Sink> {
    out: &'a mut O,
    piece: &'a mut WriteBuffer,
    failed: bool,
}

impl<'a, O: Sink> Writer<'a, O> {
    /// Creates a writer over this sink that uses this buffer, whose old bytes are removed.
    pub fn over(out: &'a mut O, piece: &'a mut WriteBuffer) -> Writer<'a, O>
        ensures { IsNew out.entry result }
    {
        piece.clear();
        Writer {
            out,
            piece,
            failed: false,
        }
    }

    /// Puts the bytes that wait, as the last piece of the text.
    ///
    /// # Errors
    /// `Failed` if this put or an earlier one failed. Then not all of the text is in the sink.
    pub fn finish(&mut self) -> Result<(), Failed>
        ensures { IsFinished O.seen self.old self.new result }
    {
        if self.failed {
            return Err(Failed);
        }
        self.out.put(self.piece.bytes())
    }

    // Puts the bytes that wait if they are a whole piece, so that one more byte fits.
    fn make_room(&mut self)
        ensures added { IsAdded O.seen self.old [] self.new }
        ensures room { length self.new.piece.now < PIECE }
    {
        if self.piece.has_room() {
            return;
        }
        self.failed = self.finish().is_err();
        self.piece.clear();
    }

    /// Adds a byte. If a whole piece waits, it is put first.
    pub fn add_byte(&mut self, byte: u8)
        ensures { IsAdded O.seen self.old (byte ∷ []) self.new }
    {
        self.make_room();
        self.piece.push(byte);
    }

    /// Adds a text.
    pub fn add_text(&mut self, text: &[u8])
        ensures { IsAdded O.seen self.old text.now self.new }
    {
        for byte in text {
            self.add_byte(*byte);
        }
    }

    /// Adds a decimal number.
    pub fn add_number(&mut self, number: u64)
        ensures { IsAdded O.seen self.old (decimal number) self.new }
    {
        let mut digits = Buffer::new();
        self.add_text(digits.format(number).as_bytes());
    }

    /// Adds a byte `count` times.
    pub fn add_repeated(&mut self, byte: u8, count: usize)
        ensures { IsAdded O.seen self.old (replicate count byte) self.new }
    {
        for _ in 0..count {
            self.add_byte(byte);
        }
    }
}
