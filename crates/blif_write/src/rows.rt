//! The rows of a LUT.
ghost use Rattle.std.specs.Prelude.{◌≡◌, ◌≤◌, ◌<◌, ◌+◌, ◌^◌, ◌++◌, [], if◌then◌else◌, false, map, slice_index_or};
ghost use Rattle.std.specs.List.{flat_map};
ghost use Rattle.tl_piece.specs.Added.{IsAdded};
ghost use Rattle.list_laws.specs.Digits.{digit};
ghost use Rattle.cut_sets.specs.declared.limits.TheConstants.{MOST_LEAVES};
ghost use Rattle.blif_read.specs.Rows.{cell_character};
ghost use Rattle.blif_write.specs.PlainNetlist.{row_line, line_text};
ghost use Rattle.blif_write.specs.Netlists.{digit_cell, digit_cells, chosen_cells, fixed_rows, tunable_rows};

use tl_io::Sink;
use tl_piece::Writer;

/// The number of bits of a LUT with this many leaves.
pub(crate) fn bit_count(leaves: usize) -> usize
    requires { leaves ≤ MOST_LEAVES }
    ensures value { result ≡ 2 ^ leaves }
    ensures few { result ≤ 2 ^ MOST_LEAVES }
{
    1 << leaves
}

// The character of the binary digit of `v` at a place.
fn digit_character(v: usize, place: usize) -> u8
    requires { place < MOST_LEAVES }
    ensures { result ≡ cell_character (digit_cell (digit v place)) }
{
    if (v >> place) % 2 == 1 { b'1' } else { b'0' }
}

// Adds the binary digits of `v`, that of leaf 0 first.
fn add_digits<O: Sink>(leaves: usize, v: usize, writer: &mut Writer<'_, O>)
    requires few { leaves ≤ MOST_LEAVES }
    ensures { IsAdded O.seen writer.old (map cell_character (digit_cells leaves v)) writer.new }
{
    for place in 0..leaves {
        writer.add_byte(digit_character(v, place));
    }
}

// Adds the row for the leaf values `v`.
fn add_fixed_row<O: Sink>(leaves: usize, v: usize, writer: &mut Writer<'_, O>)
    requires few { leaves ≤ MOST_LEAVES }
    ensures { IsAdded O.seen writer.old (line_text (row_line (digit_cells leaves v))) writer.new }
{
    if leaves == 0 {
        writer.add_text(b"1\n");
        return;
    }
    add_digits(leaves, v, writer);
    writer.add_text(b" 1\n");
}

// The bit at an address; false past the end.
fn bit_at(config: &[bool], address: usize) -> bool
    ensures { result ≡ slice_index_or config.now address false }
{
    address < config.len() && config[address]
}

// Adds the row for the leaf values `v` if their bit is 1.
fn add_fixed_row_if<O: Sink>(bit: bool, leaves: usize, v: usize, writer: &mut Writer<'_, O>)
    requires few { leaves ≤ MOST_LEAVES }
    ensures { IsAdded O.seen writer.old (if bit then line_text (row_line (digit_cells leaves v)) else []) writer.new }
{
    if bit {
        add_fixed_row(leaves, v, writer);
    }
}

/// Adds a row for each assignment of the leaves whose bit of the configuration is 1, ascending. The bits of the LUT begin at
/// `base`.
pub(crate) fn add_fixed_rows<O: Sink>(
    config: &[bool],
    base: usize,
    leaves: usize,
    writer: &mut Writer<'_, O>,
)
    requires few { leaves ≤ MOST_LEAVES }
    requires base { base < 2 ^ 32 }
    ensures { IsAdded O.seen writer.old (flat_map line_text (map (λ row. row_line row.cells) (fixed_rows config.now base leaves))) writer.new }
{
    for v in 0..bit_count(leaves) {
        add_fixed_row_if(bit_at(config, base + v), leaves, v, writer);
    }
}

// Adds the row that requires the leaf values `v` and bit `v`.
fn add_tunable_row<O: Sink>(leaves: usize, v: usize, writer: &mut Writer<'_, O>)
    requires few { leaves ≤ MOST_LEAVES }
    requires there { v < 2 ^ leaves }
    ensures { IsAdded O.seen writer.old (line_text (row_line (digit_cells leaves v ++ chosen_cells (2 ^ leaves) v))) writer.new }
{
    let bits = bit_count(leaves);
    add_digits(leaves, v, writer);
    writer.add_repeated(b'-', v);
    writer.add_byte(b'1');
    writer.add_repeated(b'-', bits - 1 - v);
    writer.add_text(b" 1\n");
}

/// Adds a row for each assignment of the leaves, ascending, which requires the bit of this assignment.
pub(crate) fn add_tunable_rows<O: Sink>(leaves: usize, writer: &mut Writer<'_, O>)
    requires few { leaves ≤ MOST_LEAVES }
    ensures { IsAdded O.seen writer.old (flat_map line_text (map (λ row. row_line row.cells) (tunable_rows leaves))) writer.new }
{
    for v in 0..bit_count(leaves) {
        add_tunable_row(leaves, v, writer);
    }
}
