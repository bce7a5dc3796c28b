//! The parts of an output line.
ghost use Rattle.std.specs.Prelude.{◌≡◌, map};
ghost use Rattle.std.specs.List.{flat_map};
ghost use Rattle.tl_io.specs.Sink.{IsPut};
ghost use Rattle.tl_piece.specs.Added.{IsAdded};
ghost use Rattle.run_text.specs.Lines.{bit_digit, write_text, part_text};

use crate::line_buf::LineBuf;
use tl_io::{Failed, Sink, Write};
use tl_piece::Writer;

/// A part of a line.
#[derive(Clone, Copy)]
pub enum Part<'a> {
    /// Literal text.
    Text(&'a [u8]),
    /// A decimal number.
    Number(u64),
    /// A string of `0` and `1`, or `-` if there are no bits.
    Bits(&'a [bool]),
    /// Writes, each with a blank before it: the address, `=` and the bit.
    Writes(&'a [Write]),
}

/// Writes a line of these parts, in pieces of 4,096 bytes (the last may be shorter). Allocates no memory.
///
/// # Errors
/// `Failed` only if the sink's count of faults rose. A prefix of the line is then written.
pub fn put_line<O: Sink>(parts: &[Part], buf: &mut LineBuf, out: &mut O) -> Result<(), Failed>
    ensures { IsPut (O.seen out.old) (flat_map part_text parts.now) (O.seen out.new) result }
{
    let mut writer = Writer::over(out, &mut *buf.piece);
    add_parts(parts, &mut writer);
    writer.finish()
}

fn add_parts<O: Sink>(parts: &[Part], writer: &mut Writer<'_, O>)
    ensures { IsAdded O.seen writer.old (flat_map part_text parts.now) writer.new }
{
    for part in parts {
        add_part(part, writer);
    }
}

fn add_part<O: Sink>(part: &Part, writer: &mut Writer<'_, O>)
    ensures { IsAdded O.seen writer.old (part_text part.now) writer.new }
{
    match part {
        Part::Text(text) => writer.add_text(text),
        Part::Number(number) => writer.add_number(*number),
        Part::Bits([]) => writer.add_text(b"-"),
        Part::Bits(bits) => add_bits(bits, writer),
        Part::Writes(writes) => add_writes(writes, writer),
    }
}

fn add_bits<O: Sink>(bits: &[bool], writer: &mut Writer<'_, O>)
    ensures { IsAdded O.seen writer.old (map bit_digit bits.now) writer.new }
{
    for bit in bits {
        writer.add_byte(digit(*bit));
    }
}

fn add_writes<O: Sink>(writes: &[Write], writer: &mut Writer<'_, O>)
    ensures { IsAdded O.seen writer.old (flat_map write_text writes.now) writer.new }
{
    for write in writes {
        add_write(*write, writer);
    }
}

fn add_write<O: Sink>(write: Write, writer: &mut Writer<'_, O>)
    ensures { IsAdded O.seen writer.old (write_text write) writer.new }
{
    writer.add_byte(b' ');
    writer.add_number(write.address as u64);
    let value = [b'=', digit(write.bit)];
    writer.add_text(&value);
}

fn digit(bit: bool) -> u8
    ensures { result ≡ bit_digit bit }
{
    if bit { b'1' } else { b'0' }
}
