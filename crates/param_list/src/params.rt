//! Parameter lists.
ghost use Rattle.std.specs.Prelude.{◌≡◌, ◌<◌, ◌≤◌, ◌^◌, length, Ok, IfOk, IfErr};
ghost use Rattle.tl_fault.specs.OrMemory.{OrMemory};
ghost use Rattle.tl_text.specs.Once.{AreOnce};
ghost use Rattle.tl_text.specs.declared.logical_lines.TheConstants.{MOST_BYTES};
ghost use Rattle.param_list.specs.Parameters.{AreParameters};
ghost use Rattle.param_list.specs.ParamsText.{IsParamsText, IsParamsFault, HasOneReading, par_err};
ghost use Rattle.param_list.specs.Refusals.{refusal_of};

use crate::par_err::ParErr;
use crate::param_lines::read_lines;
use netlist::Flat;
use std::alloc::Global;
use std::marker::Model;
use tl_text::{Name, TextErr, lines};

/// A parameter: an input that seldom changes.
#[derive(Debug, Drop)]
pub struct Param {
    pub name: Name,
    /// Its place in [`Flat::inputs`], counted from 0.
    pub input: u32,
    /// Its initial value.
    pub init: bool,
}

/// The parameters in the order of their list.
#[derive(Drop)]
pub struct Params {
    pub list: Vec<Param>,
}

impl Model for Params {
    ghost use Rattle.param_list.specs.Parameters.{ParamsValue};

    ghost Value = { ParamsValue };

    ghost view = { λ p. record { list = p.list.items } };
}

// The refusal of a parameter list that stands for this fault of its lines.
fn lines_err(error: TextErr) -> ParErr
    ensures { result ≡ par_err error }
{
    match error {
        TextErr::BadByte(line) => ParErr::BadByte(line),
        TextErr::TrailingSlash(line) => ParErr::TrailingSlash(line),
        TextErr::Memory => ParErr::Memory,
    }
}

/// The parameters in a list, for a flat circuit. Each line has the name of an input and its initial value, `0` or `1`. The
/// names of the inputs differ, and there are fewer than 2^32.
///
/// Time and memory are linear in the text and in the names of the circuit's inputs and clock nets, on average over the
/// hashes.
///
/// # Errors
/// The first refusal of the text, by `specs/ParamsText.antt`: T1 and T2 of its physical lines; otherwise the first of P1, L8,
/// P2, P3 and P4 of the first logical line that has one. `Memory` if memory runs out. A text is one list of
/// parameters or has one refusal, and not both.
pub fn read_params(alloc: Global, text: &[u8], flat: &Flat) -> Result<Params, ParErr>
    requires short { length text.now ≤ MOST_BYTES }
    requires few { length flat.now.inputs < 2 ^ 32 }
    requires once { AreOnce flat.now.inputs }
    ensures params { IfOk result (λ params. IsParamsText flat.now text.now params.list) }
    ensures are { IfOk result (λ params. AreParameters flat.now params.list) }
    ensures fault { IfErr result (OrMemory refusal_of (IsParamsFault flat.now text.now)) }
    ensures one_reading { HasOneReading flat.now text.now }
{
    match lines(alloc, text) {
        Ok(found) => {
            let list = read_lines(alloc, text, &found, flat)?;
            Ok(Params { list })
        }
        Err(error) => Err(lines_err(error)),
    }
}
