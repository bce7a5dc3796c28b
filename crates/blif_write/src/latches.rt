//! The lines of the latches.
ghost use Rattle.std.specs.Prelude.{◌≡◌, [], ◌∷◌, ◌++◌, Some, length, map};
ghost use Rattle.std.specs.List.{flat_map};
ghost use Rattle.tl_piece.specs.Added.{IsAdded};
ghost use Rattle.blif_read.specs.Rows.{output_token};
ghost use Rattle.blif_write.specs.PlainNetlist.{line_text, latch_line, control_words, words_text};
ghost use Rattle.blif_write.specs.Netlists.{clock_of, written_latch, written_latches};

use crate::names::Names;
use crate::words::add_word;
use aig_core::Lit;
use netlist::FlatLatch;
use tl_io::Sink;
use tl_piece::Writer;
use tl_text::Name;

// Adds the type and the control net of a latch.
fn add_clock<O: Sink>(control: &Name, writer: &mut Writer<'_, O>)
    ensures { IsAdded O.seen writer.old (words_text (control_words (Some control.now))) writer.new }
{
    writer.add_text(b" re");
    add_word(control, writer);
}

// Adds the type and the control net of a latch, if it has one.
fn add_control<O: Sink>(control: &Option<Name>, clocked: bool, writer: &mut Writer<'_, O>)
    ensures { IsAdded O.seen writer.old (words_text (control_words (clock_of control.now clocked))) writer.new }
{
    match control {
        Some(name) if clocked => add_clock(name, writer),
        _ => {}
    }
}

// Adds the initial state, which ends the line of a latch.
fn add_init<O: Sink>(init: bool, writer: &mut Writer<'_, O>)
    ensures { IsAdded O.seen writer.old (32 ∷ (output_token init ++ 10 ∷ [])) writer.new }
{
    if init {
        writer.add_text(b" 1\n");
    } else {
        writer.add_text(b" 0\n");
    }
}

// Adds the line of a latch.
fn add_latch<O: Sink>(
    names: &Names,
    control: &Option<Name>,
    ordinal: usize,
    latch: &FlatLatch,
    next: Lit,
    writer: &mut Writer<'_, O>,
)
    ensures { IsAdded O.seen writer.old (line_text (latch_line (written_latch names.now control.now ordinal latch.now next))) writer.new }
{
    writer.add_text(b".latch ");
    names.add_literal(next.0 as u64, writer);
    writer.add_byte(b' ');
    names.add_own(b'l', ordinal as u64, writer);
    add_control(control, latch.clocked, writer);
    add_init(latch.init, writer);
}

/// Adds the lines of the latches. Their inputs are the literals of the next states.
pub(crate) fn add_latches<O: Sink>(
    names: &Names,
    control: &Option<Name>,
    latches: &[FlatLatch],
    nexts: &[Lit],
    writer: &mut Writer<'_, O>,
)
    requires { length nexts.now ≡ length latches.now }
    ensures { IsAdded O.seen writer.old (flat_map line_text (map latch_line (written_latches names.now control.now 0 latches.now nexts.now))) writer.new }
{
    for ordinal in 0..latches.len() {
        add_latch(
            names,
            control,
            ordinal,
            &latches[ordinal],
            nexts[ordinal],
            writer,
        );
    }
}
