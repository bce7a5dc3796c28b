//! The LUTs of a source circuit.
use cover_pick::Template;
use lut_sim::Shape;
use ppc_pack::Pack;

/// The LUTs of a source circuit: their template, the pack of their bits, and the shape of the circuit's sources.
#[derive(Drop)]
pub struct SourceTables {
    pub template: Template,
    pub pack: Pack,
    pub shape: Shape,
}
