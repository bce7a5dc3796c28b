//! The lines of the written text.
ghost use Rattle.tl_io.specs.Sink.{IsPut};
ghost use Rattle.tl_piece.specs.Added.{IsAdded};
ghost use Rattle.std.specs.Prelude.{◌∷◌, decimal};
ghost use Rattle.tl_text.specs.WrittenText.{line_text, words_text};
ghost use Rattle.aiger_io.specs.WrittenText.{header_words, item_text, symbol_text, init_words};

use crate::header::Header;
use crate::item::Item;
use tl_io::Sink;
use tl_piece::Writer;

// Adds a number after a blank.
fn add_number<O: Sink>(number: u32, writer: &mut Writer<'_, O>)
    ensures { IsAdded O.seen writer.old (32 ∷ decimal number) writer.new }
{
    writer.add_byte(b' ');
    writer.add_number(number as u64);
}

/// Adds the header.
pub(crate) fn add_header<O: Sink>(h: &Header, writer: &mut Writer<'_, O>)
    ensures { IsAdded O.seen writer.old (line_text (header_words h.now)) writer.new }
{
    writer.add_text(b"aag");
    add_number(h.variables, writer);
    add_number(h.inputs, writer);
    add_number(h.latches, writer);
    add_number(h.outputs, writer);
    add_number(h.ands, writer);
    writer.add_byte(b'\n');
}

// Adds an initial state, if it is 1.
fn add_init<O: Sink>(init: bool, writer: &mut Writer<'_, O>)
    ensures { IsAdded O.seen writer.old (words_text (init_words init)) writer.new }
{
    if init {
        writer.add_text(b" 1");
    } else {
        writer.add_text(b"");
    }
}

/// Adds the line of an input or an output.
pub(crate) fn add_literal<O: Sink>(l: u32, writer: &mut Writer<'_, O>)
    ensures input { IsAdded O.seen writer.old (item_text (Item.Input l)) writer.new }
    ensures output { IsAdded O.seen writer.old (item_text (Item.Output l)) writer.new }
{
    writer.add_number(l as u64);
    writer.add_byte(b'\n');
}

/// Adds the line of a latch.
pub(crate) fn add_latch<O: Sink>(own: u32, next: u32, init: bool, writer: &mut Writer<'_, O>)
    ensures { IsAdded O.seen writer.old (item_text (Item.Latch own next init)) writer.new }
{
    writer.add_number(own as u64);
    add_number(next, writer);
    add_init(init, writer);
    writer.add_byte(b'\n');
}

/// Adds the line of an AND gate.
pub(crate) fn add_gate<O: Sink>(own: u32, left: u32, right: u32, writer: &mut Writer<'_, O>)
    ensures { IsAdded O.seen writer.old (item_text (Item.And own left right)) writer.new }
{
    writer.add_number(own as u64);
    add_number(left, writer);
    add_number(right, writer);
    writer.add_byte(b'\n');
}

/// Adds a symbol.
pub(crate) fn add_symbol<O: Sink>(letter: u8, ordinal: u32, name: &[u8], writer: &mut Writer<'_, O>)
    ensures { IsAdded O.seen writer.old (symbol_text letter ordinal name.now) writer.new }
{
    writer.add_byte(letter);
    writer.add_number(ordinal as u64);
    writer.add_byte(b' ');
    writer.add_text(name);
    writer.add_byte(b'\n');
}
