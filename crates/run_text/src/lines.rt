//! The output lines for a template, a pack, a cycle and an image.
ghost use Rattle.tl_io.specs.Sink.{IsPut};
ghost use Rattle.run_text.specs.Lines.{header_line, bits_header_line, cycle_line, image_line};

use crate::line_buf::LineBuf;
use crate::part::{Part, put_line};
use tl_io::{Failed, Sink};

/// Writes the line `luts LUTS bits BITS depth DEPTH`: the number of LUTs of a template, the number of its configuration bits,
/// and its depth. Writes pieces of 4,096 bytes; the last may be shorter. Allocates no memory.
///
/// # Errors
/// `Failed` only if the sink's count of faults rose. A prefix of the line is then written.
pub fn put_header<O: Sink>(
    luts: u32,
    bits: u32,
    depth: u32,
    buf: &mut LineBuf,
    out: &mut O,
) -> Result<(), Failed>
    ensures { IsPut (O.seen out.old) (header_line luts bits depth) (O.seen out.new) result }
{
    let parts = [
        Part::Text(b"luts "),
        Part::Number(luts as u64),
        Part::Text(b" bits "),
        Part::Number(bits as u64),
        Part::Text(b" depth "),
        Part::Number(depth as u64),
        Part::Text(b"\n"),
    ];
    put_line(&parts, buf, out)
}

/// Writes the line `bits BITS`: the number of configuration bits of a pack. Writes pieces of 4,096 bytes; the last may be
/// shorter. Allocates no memory.
///
/// # Errors
/// `Failed` only if the sink's count of faults rose. A prefix of the line is then written.
pub fn put_bits_header<O: Sink>(bits: u32, buf: &mut LineBuf, out: &mut O) -> Result<(), Failed>
    ensures { IsPut (O.seen out.old) (bits_header_line bits) (O.seen out.new) result }
{
    let parts = [
        Part::Text(b"bits "),
        Part::Number(bits as u64),
        Part::Text(b"\n"),
    ];
    put_line(&parts, buf, out)
}

/// Writes the line `cycle OUTPUTS STATES`: the outputs of a cycle and the states after it, each a string of `0` and `1`, or
/// `-` if there are none. Writes pieces of 4,096 bytes; the last may be shorter. Allocates no memory.
///
/// # Errors
/// `Failed` only if the sink's count of faults rose. A prefix of the line is then written.
pub fn put_cycle<'a, O: Sink>(
    outputs: &'a [bool],
    states: &'a [bool],
    buf: &mut LineBuf,
    out: &mut O,
) -> Result<(), Failed>
    ensures { IsPut (O.seen out.old) (cycle_line outputs.now states.now) (O.seen out.new) result }
{
    let parts = [
        Part::Text(b"cycle "),
        Part::Bits(outputs),
        Part::Text(b" "),
        Part::Bits(states),
        Part::Text(b"\n"),
    ];
    put_line(&parts, buf, out)
}

/// Writes the line `image BITS`: the configuration bits in the order of their addresses, a string of `0` and `1`, or `-` if
/// there are none. Writes pieces of 4,096 bytes; the last may be shorter. Allocates no memory.
///
/// # Errors
/// `Failed` only if the sink's count of faults rose. A prefix of the line is then written.
pub fn put_image<'a, O: Sink>(
    config: &'a [bool],
    buf: &mut LineBuf,
    out: &mut O,
) -> Result<(), Failed>
    ensures { IsPut (O.seen out.old) (image_line config.now) (O.seen out.new) result }
{
    let parts = [Part::Text(b"image "), Part::Bits(config), Part::Text(b"\n")];
    put_line(&parts, buf, out)
}
