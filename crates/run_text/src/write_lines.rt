//! The output lines with writes: configuration bits, each with its address and its value.
ghost use Rattle.tl_io.specs.Sink.{IsPut};
ghost use Rattle.run_text.specs.Lines.{writes_line, set_line, scrub_line, upset_line, wait_line, ask_line};

use crate::line_buf::LineBuf;
use crate::part::{Part, put_line};
use tl_io::{Failed, Sink, Write};

// Writes a line of writes after a word.
fn put_writes<'a, O: Sink>(
    word: &'a [u8],
    writes: &'a [Write],
    buf: &mut LineBuf,
    out: &mut O,
) -> Result<(), Failed>
    ensures { IsPut (O.seen out.old) (writes_line word.now writes.now) (O.seen out.new) result }
{
    let parts = [
        Part::Text(word),
        Part::Number(writes.len() as u64),
        Part::Writes(writes),
        Part::Text(b"\n"),
    ];
    put_line(&parts, buf, out)
}

/// Writes the line `set COUNT` and each write as `ADDRESS=BIT`: the bits that a change of parameters rewrote. Writes pieces
/// of 4,096 bytes; the last may be shorter. Allocates no memory.
///
/// # Errors
/// `Failed` only if the sink's count of faults rose. A prefix of the line is then written.
pub fn put_set<O: Sink>(writes: &[Write], buf: &mut LineBuf, out: &mut O) -> Result<(), Failed>
    ensures { IsPut (O.seen out.old) (set_line writes.now) (O.seen out.new) result }
{
    put_writes(b"set ", writes, buf, out)
}

/// Writes the line `wait COUNT` and each write as `ADDRESS=BIT`: the bits that a tick rewrote while the circuit waited.
/// Writes pieces of 4,096 bytes; the last may be shorter. Allocates no memory.
///
/// # Errors
/// `Failed` only if the sink's count of faults rose. A prefix of the line is then written.
pub fn put_wait<O: Sink>(writes: &[Write], buf: &mut LineBuf, out: &mut O) -> Result<(), Failed>
    ensures { IsPut (O.seen out.old) (wait_line writes.now) (O.seen out.new) result }
{
    put_writes(b"wait ", writes, buf, out)
}

/// Writes the line `ask COUNT`: the number of configuration bits that differ from those of the values that were asked for.
/// Writes pieces of 4,096 bytes; the last may be shorter. Allocates no memory.
///
/// # Errors
/// `Failed` only if the sink's count of faults rose. A prefix of the line is then written.
pub fn put_ask<O: Sink>(count: u32, buf: &mut LineBuf, out: &mut O) -> Result<(), Failed>
    ensures { IsPut (O.seen out.old) (ask_line count) (O.seen out.new) result }
{
    let parts = [
        Part::Text(b"ask "),
        Part::Number(count as u64),
        Part::Text(b"\n"),
    ];
    put_line(&parts, buf, out)
}

/// Writes the line `scrub COUNT` and each write as `ADDRESS=BIT`: the upset bits that were corrected. Writes pieces of 4,096
/// bytes; the last may be shorter. Allocates no memory.
///
/// # Errors
/// `Failed` only if the sink's count of faults rose. A prefix of the line is then written.
pub fn put_scrub<O: Sink>(writes: &[Write], buf: &mut LineBuf, out: &mut O) -> Result<(), Failed>
    ensures { IsPut (O.seen out.old) (scrub_line writes.now) (O.seen out.new) result }
{
    put_writes(b"scrub ", writes, buf, out)
}

/// Writes the line `upset ADDRESS=BIT`: the bit that was upset, and its new value. Writes pieces of 4,096 bytes; the last may
/// be shorter. Allocates no memory.
///
/// # Errors
/// `Failed` only if the sink's count of faults rose. A prefix of the line is then written.
pub fn put_upset<O: Sink>(write: Write, buf: &mut LineBuf, out: &mut O) -> Result<(), Failed>
    ensures { IsPut (O.seen out.old) (upset_line write) (O.seen out.new) result }
{
    let writes = [write];
    let parts = [
        Part::Text(b"upset"),
        Part::Writes(&writes),
        Part::Text(b"\n"),
    ];
    put_line(&parts, buf, out)
}
