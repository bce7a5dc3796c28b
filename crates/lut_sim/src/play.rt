//! A cycle on the values of the literals: the sources' values, then the LUTs' bits, then the roots' values.
ghost use Rattle.std.specs.Prelude.{◌≡◌, ◌<◌, ℕ, ◌+◌, ◌-◌, ◌*◌, ◌≤◌, ◌^◌, length, map, drop};
ghost use Rattle.list_laws.specs.Members.{In};
ghost use Rattle.list_laws.specs.Digits.{number};
ghost use Rattle.aig_core.specs.Roots.{lits_of};
ghost use Rattle.lut_sim.specs.Sources.{last_source};
ghost use Rattle.lut_sim.specs.Playable.{IsPlayable};
ghost use Rattle.lut_sim.specs.Cycle.{FitsTables, leaf_values};
ghost use Rattle.lut_sim.specs.Steps.{HasRoom, value_in, with_sources, with_table, with_tables, filled, IsTableInRoom, HaveSources};

use crate::shape::{Shape, is_plain};
use aig_core::Lit;
use cover_pick::{Lut, Template};
use cut_enum::Cut;

// The number whose binary digits are the values of a cut's leaves, leaf 0 the lowest.
fn number_of(values: &[bool], cut: &Cut) -> usize
    requires { (m : ℕ) → In cut.now m → 2 * m < length values.now }
    ensures number { result ≡ number (leaf_values (value_in values.now) cut.now) }
    ensures small { result < 2 ^ length cut.now }
{
    let leaves = cut.leaves();
    let count = cut.len();
    let mut above = 0;
    for i in 0..count {
        let leaf = leaves[count - 1 - i];
        above = usize::from(values[leaf as usize * 2]) + 2 * above;
    }
    above
}

// Sets the values of the sources that begin at `first`.
fn set_sources(values: &mut [bool], first: usize, bits: &[bool])
    requires { 2 * (first + length bits.now) ≤ length values.old + 1 }
    ensures { values.new ≡ with_sources values.old first bits.now }
{
    let mut n = first;
    for bit in bits {
        values[2 * n] = *bit;
        n += 1;
    }
}

// Gives the bit of a LUT to its literal.
fn play_table(shape: &Shape, config: &[bool], table: &Lut, values: &mut [bool])
    requires { IsTableInRoom table.now (length config.now) (length values.old) }
    ensures { values.new ≡ with_table shape.now config.now values.old table.now }
{
    let address = table.base as usize + number_of(values, &table.leaves);
    if !is_plain(shape, u64::from(table.lit.0)) {
        values[table.lit.0 as usize] = config[address];
    }
}

// Plays the LUTs in order.
fn play_tables(shape: &Shape, config: &[bool], tables: &[Lut], values: &mut [bool])
    requires { (t : Lut) → In tables.now t → IsTableInRoom t (length config.now) (length values.old) }
    ensures { values.new ≡ with_tables shape.now config.now values.old tables.now }
{
    for table in tables {
        play_table(shape, config, table, values);
    }
}

// Overwrites bits with the values of roots.
fn write_roots(values: &[bool], roots: &[Lit], bits: &mut [bool])
    requires room { (l : ℕ) → In (lits_of roots.now) l → l < length values.now }
    requires len { length bits.old ≡ length roots.now }
    ensures { bits.new ≡ filled bits.old 0 (map (value_in values.now) (lits_of roots.now)) }
{
    let mut i = 0;
    for root in roots {
        bits[i] = values[root.0 as usize];
        i += 1;
    }
}

// Writes the values of the roots to `bits`.
pub fn read_roots(values: &[bool], roots: &[Lit], bits: &mut [bool])
    requires room { (l : ℕ) → In (lits_of roots.now) l → l < length values.now }
    requires len { length bits.old ≡ length roots.now }
    ensures { bits.new ≡ map (value_in values.now) (lits_of roots.now) }
{
    write_roots(values, roots, bits);
}

// Sets the values of all sources.
fn set_all_sources(shape: &Shape, inputs: &[bool], states: &[bool], values: &mut [bool])
    requires room { 2 * last_source shape.now + 1 < length values.old }
    requires inputs { length inputs.now ≡ shape.now.regular }
    requires states { length states.now ≡ shape.now.latches }
    ensures sources { HaveSources shape.now inputs.now states.now values.new }
{
    let before_latches = shape.regular as usize + shape.params as usize;
    set_sources(values, 1, inputs);
    set_sources(values, 1 + before_latches, states);
}

// Computes the values of all literals in a cycle.
pub fn play(
    template: &Template,
    shape: &Shape,
    config: &[bool],
    inputs: &[bool],
    states: &[bool],
    values: &mut [bool],
)
    requires playable { IsPlayable template.now shape.now }
    requires room { HasRoom template.now shape.now (length values.old) }
    requires config { length config.now ≡ template.now.bits }
    requires inputs { length inputs.now ≡ shape.now.regular }
    requires states { length states.now ≡ shape.now.latches }
    ensures { FitsTables template.now.luts shape.now config.now inputs.now states.now (value_in values.new) }
{
    set_all_sources(shape, inputs, states, values);
    let tables = template.luts.as_slice();
    play_tables(shape, config, tables, values);
}
