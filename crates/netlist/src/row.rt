//! A row of a cover.
use crate::cell::Cell;
use std::marker::Model;

/// A row of a cover: the product of the input values that its cells require.
#[derive(Drop)]
pub struct Row {
    /// One cell per input of the cover, in the inputs' order.
    pub cells: Vec<Cell>,
}

impl Model for Row {
    ghost use Rattle.netlist.specs.CoverValue.{RowValue};

    ghost Value = { RowValue };

    ghost view = { λ r. record { cells = r.cells.items } };
}
