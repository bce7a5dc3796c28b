//! The numbers of a circuit's sources.
ghost use Rattle.std.specs.Prelude.{◌≡◌, ℕ, List, length};
ghost use Rattle.list_laws.specs.Members.{In};
ghost use Rattle.aig_core.specs.Aig.{Aig};
ghost use Rattle.aig_core.specs.Roots.{lits_of};
ghost use Rattle.cover_pick.specs.Mapping.{IsMapping};
ghost use Rattle.cover_pick.specs.Template.{TemplateValue};
ghost use Rattle.lut_sim.specs.GraphShape.{PlaysMapping};
ghost use Rattle.lut_sim.specs.Playable.{IsPlayable};
ghost use Rattle.lut_sim.specs.Sources.{is_regular as regular_of, is_plain as plain_of};

use cover_pick::Template;

/// The number of sources of each kind: the regular inputs first, then the parameters, then the latches.
///
/// Index 0 of a graph is the constant, so the indices of the sources begin at 1. Regular inputs and latches are the regular
/// sources.
#[derive(Clone, Copy, Debug, PartialEq, Eq)]
pub struct Shape {
    /// The number of inputs that change from cycle to cycle.
    pub regular: u32,
    /// The number of parameters: inputs for which a configuration is computed.
    pub params: u32,
    /// The number of latches.
    pub latches: u32,
}

impl Shape {
    /// The shape with these numbers of regular inputs, parameters and latches.
    ///
    /// The contract also says that a template can be played if its LUTs map a graph of this shape for roots that include its
    /// outputs and next states, and it has one next state for each latch.
    pub fn new(regular: u32, params: u32, latches: u32) -> Shape
        ensures value { result ≡ record { regular = regular; params = params; latches = latches } }
        ensures playable { (g : Aig) (k : ℕ) (roots : List ℕ) (t : TemplateValue) → PlaysMapping g k roots t result }
    {
        Shape {
            regular,
            params,
            latches,
        }
    }

    /// The number of LUTs of a circuit of this shape. Each has at least one bit.
    pub fn table_count(&self, template: &Template) -> u32
        requires { IsPlayable template.now self.now }
        ensures { result ≡ length template.now.luts }
    {
        // The proof needs this field's model.
        let _bits = template.bits;
        template.luts.len() as u32
    }
}

// Whether this is a regular input or a latch.
fn is_regular(shape: &Shape, n: u64) -> bool
    ensures { result ≡ regular_of shape.now n }
{
    let regular = u64::from(shape.regular);
    let before_latches = regular + u64::from(shape.params);
    let last = before_latches + u64::from(shape.latches);
    (1 <= n && n <= regular) || (before_latches < n && n <= last)
}

/// Whether this is the positive literal of a regular source, which needs no LUT. A literal has 64 bits here, since the leaves
/// of LUTs from elsewhere may be any numbers.
pub fn is_plain(shape: &Shape, lit: u64) -> bool
    ensures { result ≡ plain_of shape.now lit }
{
    lit % 2 == 0 && is_regular(shape, lit / 2)
}
