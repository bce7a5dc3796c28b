//! The LUTs as covers, and the lines of their bits.
ghost use Rattle.std.specs.Prelude.{◌∷◌, [], ◌*◌, ◌^◌, ◌<◌, ◌++◌, length, map, codes};
ghost use Rattle.std.specs.List.{flat_map, range_with_len};
ghost use Rattle.tl_piece.specs.Added.{IsAdded};
ghost use Rattle.blif_write.specs.OwnNames.{bit_name, literal_name, table_name};
ghost use Rattle.blif_write.specs.PlainNetlist.{line_text, cover_lines, row_line, words_text};
ghost use Rattle.blif_write.specs.Netlists.{leaf_names, bit_names, fixed_rows, fixed_table, tunable_rows, tunable_table};

use crate::names::Names;
use crate::rows::{add_fixed_rows, add_tunable_rows, bit_count};
use cover_pick::Lut;
use tl_io::Sink;
use tl_piece::Writer;

// Adds the names of leaves, each after a blank.
fn add_leaves<O: Sink>(names: &Names, leaves: &[u32], writer: &mut Writer<'_, O>)
    ensures { IsAdded O.seen writer.old (words_text (map (λ m. literal_name names.now (2 * m)) leaves.now)) writer.new }
{
    for leaf in leaves {
        writer.add_byte(b' ');
        names.add_literal(2 * (*leaf as u64), writer);
    }
}

// Adds the names of a LUT's leaves, each after a blank.
fn add_table_leaves<O: Sink>(names: &Names, table: &Lut, writer: &mut Writer<'_, O>)
    ensures { IsAdded O.seen writer.old (words_text (leaf_names names.now table.now)) writer.new }
{
    add_leaves(names, table.leaves.leaves(), writer);
}

// Adds the names of `count` configuration bits from address `base` on, each after a blank.
fn add_bits<O: Sink>(names: &Names, base: u64, count: u64, writer: &mut Writer<'_, O>)
    requires base { base < 2 ^ 32 }
    requires count { count < 2 ^ 32 }
    ensures { IsAdded O.seen writer.old (words_text (map (bit_name names.now) (range_with_len base count))) writer.new }
{
    for address in base..base + count {
        writer.add_byte(b' ');
        names.add_own(b'c', address, writer);
    }
}

// Adds the names of a LUT's bits, each after a blank.
fn add_table_bits<O: Sink>(names: &Names, table: &Lut, writer: &mut Writer<'_, O>)
    ensures { IsAdded O.seen writer.old (words_text (bit_names names.now table.now)) writer.new }
{
    let count = bit_count(table.leaves.len());
    add_bits(names, table.base as u64, count as u64, writer);
}

// Adds the line that lists the bits of a LUT as inputs.
fn add_bit_line<O: Sink>(names: &Names, table: &Lut, writer: &mut Writer<'_, O>)
    ensures { IsAdded O.seen writer.old (line_text (codes ".inputs" ∷ bit_names names.now table.now)) writer.new }
{
    writer.add_text(b".inputs");
    add_table_bits(names, table, writer);
    writer.add_byte(b'\n');
}

/// Adds the lines that list the bits of the LUTs as inputs, one for each LUT.
pub(crate) fn add_bit_lines<O: Sink>(names: &Names, tables: &[Lut], writer: &mut Writer<'_, O>)
    ensures { IsAdded O.seen writer.old (flat_map line_text (map (λ bits. codes ".inputs" ∷ bits) (map (bit_names names.now) tables.now))) writer.new }
{
    for table in tables {
        add_bit_line(names, table, writer);
    }
}

// Adds the name of a LUT, which ends its line.
fn add_table_name<O: Sink>(names: &Names, table: &Lut, writer: &mut Writer<'_, O>)
    ensures { IsAdded O.seen writer.old (32 ∷ (table_name names.now table.now.lit.0 ++ 10 ∷ [])) writer.new }
{
    writer.add_byte(b' ');
    names.add_own(b'n', table.lit.0 as u64, writer);
    writer.add_byte(b'\n');
}

// Adds the rows of a LUT with its bits from a configuration.
fn add_table_rows<O: Sink>(config: &[bool], table: &Lut, writer: &mut Writer<'_, O>)
    ensures { IsAdded O.seen writer.old (flat_map line_text (map (λ row. row_line row.cells) (fixed_rows config.now table.now.base (length table.now.leaves)))) writer.new }
{
    add_fixed_rows(config, table.base as usize, table.leaves.len(), writer);
}

// Adds a LUT with its bits from a configuration.
fn add_fixed_table<O: Sink>(names: &Names, config: &[bool], table: &Lut, writer: &mut Writer<'_, O>)
    ensures { IsAdded O.seen writer.old (flat_map line_text (cover_lines (fixed_table names.now config.now table.now))) writer.new }
{
    writer.add_text(b".names");
    add_table_leaves(names, table, writer);
    add_table_name(names, table, writer);
    add_table_rows(config, table, writer);
}

/// Adds the LUTs with their bits from a configuration.
pub(crate) fn add_fixed_tables<O: Sink>(
    names: &Names,
    config: &[bool],
    tables: &[Lut],
    writer: &mut Writer<'_, O>,
)
    ensures { IsAdded O.seen writer.old (flat_map line_text (flat_map cover_lines (map (fixed_table names.now config.now) tables.now))) writer.new }
{
    for table in tables {
        add_fixed_table(names, config, table, writer);
    }
}

// Adds the rows of a LUT whose bits are inputs.
fn add_choice_rows<O: Sink>(table: &Lut, writer: &mut Writer<'_, O>)
    ensures { IsAdded O.seen writer.old (flat_map line_text (map (λ row. row_line row.cells) (tunable_rows (length table.now.leaves)))) writer.new }
{
    add_tunable_rows(table.leaves.len(), writer);
}

// Adds a LUT whose bits are inputs.
fn add_tunable_table<O: Sink>(names: &Names, table: &Lut, writer: &mut Writer<'_, O>)
    ensures { IsAdded O.seen writer.old (flat_map line_text (cover_lines (tunable_table names.now table.now))) writer.new }
{
    writer.add_text(b".names");
    add_table_leaves(names, table, writer);
    add_table_bits(names, table, writer);
    add_table_name(names, table, writer);
    add_choice_rows(table, writer);
}

/// Adds the LUTs with their bits as inputs.
pub(crate) fn add_tunable_tables<O: Sink>(names: &Names, tables: &[Lut], writer: &mut Writer<'_, O>)
    ensures { IsAdded O.seen writer.old (flat_map line_text (flat_map cover_lines (map (tunable_table names.now) tables.now))) writer.new }
{
    for table in tables {
        add_tunable_table(names, table, writer);
    }
}
