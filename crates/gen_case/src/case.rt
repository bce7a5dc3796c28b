//! The texts of a generated case.
use std::marker::Model;

/// A netlist with a parameter list and a script for it, as texts.
#[derive(Drop)]
pub struct Case {
    /// The netlist, in BLIF.
    pub netlist: Vec<u8>,
    /// The parameter list, with the initial values.
    pub params: Vec<u8>,
    /// The script, a hundred rounds of a `set` and a `cycle`.
    pub script: Vec<u8>,
}

impl Model for Case {
    ghost use Rattle.gen_case.specs.Case.{CaseValue};

    ghost Value = { CaseValue };

    ghost view = { λ c. record { netlist = c.netlist.items; params = c.params.items; script = c.script.items } };
}
