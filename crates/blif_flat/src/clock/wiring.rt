//! The input of the searches for clock faults.
use crate::circuit::instances::{Gate, Instance};
use crate::circuit::nets::Nets;
use tl_text::Name;

/// The instances of a library in flat order, the nets of all their names, their covers and latches, and the inputs of the main
/// model.
#[derive(Drop)]
pub(crate) struct Wiring<'a> {
    pub instances: &'a [Instance],
    pub nets: &'a Nets,
    pub covers: &'a [Gate],
    pub latches: &'a [Gate],
    pub inputs: &'a [Name],
}
