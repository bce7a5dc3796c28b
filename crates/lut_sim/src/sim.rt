//! The simulator: a circuit with all that a cycle needs.
ghost use Rattle.std.specs.Prelude.{◌≡◌, length, IfOk, replicate, false};
ghost use Rattle.lut_sim.specs.Playable.{IsPlayable};

use crate::board::{PlayedCircuit, literal_count};
use crate::shape::Shape;
use cover_pick::Template;
use std::alloc::{AllocError, Global};
use std::marker::Model;

/// A circuit of LUTs, the states of its latches, and the outputs of its last cycle.
#[derive(Drop)]
pub struct Sim {
    board: PlayedCircuit,
}

impl Model for Sim {
    ghost use Rattle.lut_sim.specs.Sim.{SimValue};
    ghost use Rattle.lut_sim.specs.Steps.{KeepsSim};

    ghost Value = { SimValue };

    ghost view = { λ s. record { template = s.board.template; shape = s.board.shape; outputs = s.board.outputs.items; states = s.board.states.items } };

    ghost invariant = { λ s. KeepsSim s.board.template s.board.shape s.board.values.items s.board.outputs.items s.board.states.items };
}

impl Sim {
    ghost use Rattle.lut_sim.specs.Cycle.{IsTableCycle, IsOnlyTableCycle};
    ghost use Rattle.lut_sim.specs.Sim.{SimValue};

    /// A circuit whose latches are at `inits`, and whose outputs are false.
    ///
    /// Allocates all the memory that cycles need, one byte for each literal, in linear time. `Err` only if memory runs out.
    pub fn make(
        alloc: Global,
        template: Template,
        shape: Shape,
        inits: &[bool],
    ) -> Result<Sim, AllocError>
        requires playable { IsPlayable template shape }
        requires inits { length inits.now ≡ shape.latches }
        ensures { IfOk result (λ sim. sim ≡ record { template = template; shape = shape; outputs = replicate (length template.outputs) false; states = inits.now }) }
    {
        let values = vec![in alloc; false; literal_count(&template, &shape)]?;
        let outputs = vec![in alloc; false; template.outputs.len()]?;
        let states = Vec::from_slice(alloc, inits)?;
        let board = PlayedCircuit {
            template,
            shape,
            values,
            outputs,
            states,
        };
        Ok(Sim { board })
    }

    /// Plays one cycle under a configuration: computes the outputs and the next states from the inputs and the states.
    ///
    /// `config` has all bits in the order of their addresses. It may be any list of bits, also one with an upset bit.
    /// `inputs` has a value for each regular input. Each LUT is played once, so time is linear in the sources, the LUTs,
    /// their leaves and the roots. Allocates no memory and can't fail.
    pub fn cycle(&mut self, config: &[bool], inputs: &[bool])
        requires config { length config.now ≡ self.old.template.bits }
        requires inputs { length inputs.now ≡ self.old.shape.regular }
        ensures cycle { IsTableCycle self.old.template self.old.shape config.now inputs.now self.old.states self.new.outputs self.new.states }

        // Whatever values of the literals fit the LUTs, the outputs and the states are their values.
        ensures only { IsOnlyTableCycle self.old.template self.old.shape config.now inputs.now self.old.states self.new.outputs self.new.states }
        ensures template { self.new.template ≡ self.old.template }
        ensures shape { self.new.shape ≡ self.old.shape }
    {
        self.board.play(config, inputs);
        self.board.read_roots();
    }

    /// The outputs of the last cycle, in order; all false before the first. Constant time.
    pub fn outputs(&self) -> &[bool]
        ensures value { result.now ≡ self.now.outputs }
        ensures len { length result.now ≡ length self.now.template.outputs }
    {
        &self.board.outputs
    }

    /// The states of the latches after the last cycle, in their order; their initial values before the first. Constant time.
    pub fn states(&self) -> &[bool]
        ensures value { result.now ≡ self.now.states }
        ensures len { length result.now ≡ self.now.shape.latches }
    {
        &self.board.states
    }
}
