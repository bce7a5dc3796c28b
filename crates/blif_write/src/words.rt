//! The words of a line: names and blanks.
ghost use Rattle.std.specs.Prelude.{◌∷◌};
ghost use Rattle.tl_piece.specs.Added.{IsAdded};

use tl_io::Sink;
use tl_piece::Writer;
use tl_text::Name;

/// Adds a name after a blank.
pub(crate) fn add_word<O: Sink>(name: &Name, writer: &mut Writer<'_, O>)
    ensures { IsAdded O.seen writer.old (32 ∷ name.now) writer.new }
{
    writer.add_byte(b' ');
    writer.add_text(name.bytes());
}
