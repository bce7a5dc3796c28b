//! The laws of the cycle relation and of flat circuits.
ghost use Rattle.netlist.specs.Flat.{IsFlat};
ghost use Rattle.netlist.specs.FlatCycle.{HasCycles};
ghost use Rattle.netlist.specs.Flattened.{HasOneFlat, HasValues};
ghost use Rattle.netlist.specs.Law.{HasOneCycle};
ghost use Rattle.netlist.specs.Sound.{IsSound};

use crate::flat::Flat;
use crate::library::Library;

/// The law of a sound library. For all values of its inputs and latches, values of all names exist that fit them, and the
/// values of driven names are unique. The library has at most one flat circuit.
///
/// The call does nothing: its contract is the law.
#[tactic(auto, using(crate::proofs::LawLemmas::sound_law, crate::proofs::OneFlatLemmas::one_flat))]
pub fn cycle_law(library: &Library)
    ensures law { IsSound library.now → HasOneCycle library.now }
    ensures one { IsSound library.now → HasOneFlat library.now }
{
    // The proof needs this field's model.
    let _models = &library.models;
}

/// The law of a flat circuit whose fields are those of its library's hierarchical names. Evaluating its covers in its order
/// gives the values that fit. If the library is sound, its cycles and runs are exactly those of the flat circuit.
///
/// The call does nothing: its contract is the law.
#[tactic(auto, using(crate::proofs::EvaluateLemmas::flat_evaluates))]
pub fn flat_law(library: &Library, flat: &Flat)
    ensures values { IsFlat library.now flat.now → HasValues library.now flat.now }
    ensures cycles { IsSound library.now → IsFlat library.now flat.now → HasCycles library.now flat.now }
{
    // The proof needs these fields' models.
    let _models = &library.models;
    let _covers = &flat.covers;
}
