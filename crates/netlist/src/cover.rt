//! A cover: the single-output function of a `.names` command.
use crate::row::Row;
use std::marker::Model;
use tl_text::Name;

/// The single-output function of a `.names` command, given by the rows of its on-set or its off-set.
#[derive(Drop)]
pub struct Cover {
    /// The nets that it reads, in the command's order.
    pub inputs: Vec<Name>,
    /// The net that it drives.
    pub output: Name,
    /// The rows' common output character: true for `1`, and if there are no rows.
    pub value: bool,
    /// The rows in the text's order. Each has one cell per input.
    pub rows: Vec<Row>,
}

impl Model for Cover {
    ghost use Rattle.netlist.specs.CoverValue.{CoverValue};

    ghost Value = { CoverValue };

    ghost view = { λ c. record { inputs = c.inputs.items; output = c.output; value = c.value; rows = c.rows.items } };
}
