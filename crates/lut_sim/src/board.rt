//! A circuit with the values of its literals, and a cycle on it.
ghost use Rattle.std.specs.Prelude.{◌≡◌, ◌<◌, length, map};
ghost use Rattle.list_laws.specs.Members.{In};
ghost use Rattle.aig_core.specs.Roots.{lits_of};
ghost use Rattle.cover_pick.specs.Mapping.{AscendByLit};
ghost use Rattle.lut_sim.specs.Playable.{IsPlayable};
ghost use Rattle.lut_sim.specs.Cycle.{FitsTables};
ghost use Rattle.lut_sim.specs.Steps.{HasRoom, value_in};

use crate::play::{play, read_roots};
use crate::shape::Shape;
use cover_pick::{Lut, Template};

// A circuit, the values of its literals, and the results of its last cycle.
#[derive(Drop)]
pub struct PlayedCircuit {
    pub template: Template,
    pub shape: Shape,
    pub values: Vec<bool>,
    pub outputs: Vec<bool>,
    pub states: Vec<bool>,
}

// A literal above those of all LUTs.
fn tables_end(tables: &[Lut]) -> usize
    requires { AscendByLit tables.now }
    ensures { (t : Lut) → In tables.now t → t.lit.0 < result }
{
    match tables.last() {
        None => 0,
        Some(table) => table.lit.0 as usize + 1,
    }
}

// The number of literals whose values are kept for the LUTs and sources.
pub fn literal_count(template: &Template, shape: &Shape) -> usize
    requires { AscendByLit template.now.luts }
    ensures { HasRoom template.now shape.now result }
{
    let last_source = shape.regular as usize + shape.params as usize + shape.latches as usize;
    let tables = tables_end(template.luts.as_slice());
    tables.max(2 * last_source + 2)
}

impl PlayedCircuit {
    // Computes the values of the literals in a cycle that begins in the current states.
    pub fn play(&mut self, config: &[bool], inputs: &[bool])
        requires playable { IsPlayable self.old.template self.old.shape }
        requires room { HasRoom self.old.template self.old.shape (length self.old.values.items) }
        requires states { length self.old.states.items ≡ length self.old.template.next }
        requires config { length config.now ≡ self.old.template.bits }
        requires inputs { length inputs.now ≡ self.old.shape.regular }
        ensures fits { FitsTables self.old.template.luts self.old.shape config.now inputs.now self.old.states.items (value_in self.new.values.items) }
        ensures template { self.new.template ≡ self.old.template }
        ensures shape { self.new.shape ≡ self.old.shape }
        ensures outputs { self.new.outputs.items ≡ self.old.outputs.items }
        ensures states { self.new.states.items ≡ self.old.states.items }
        ensures len { length self.new.values.items ≡ length self.old.values.items }
    {
        play(
            &self.template,
            &self.shape,
            config,
            inputs,
            &self.states,
            &mut self.values,
        );
    }

    // Reads the outputs and the next states from the values of the literals.
    pub fn read_roots(&mut self)
        requires room { HasRoom self.old.template self.old.shape (length self.old.values.items) }
        requires playable { IsPlayable self.old.template self.old.shape }
        requires outputs { length self.old.outputs.items ≡ length self.old.template.outputs }
        requires states { length self.old.states.items ≡ length self.old.template.next }
        ensures outputs { self.new.outputs.items ≡ map (value_in self.old.values.items) (lits_of self.old.template.outputs) }
        ensures states { self.new.states.items ≡ map (value_in self.old.values.items) (lits_of self.old.template.next) }
        ensures template { self.new.template ≡ self.old.template }
        ensures shape { self.new.shape ≡ self.old.shape }
        ensures values { self.new.values.items ≡ self.old.values.items }
    {
        read_roots(&self.values, &self.template.outputs, &mut self.outputs);
        read_roots(&self.values, &self.template.next, &mut self.states);
    }
}
