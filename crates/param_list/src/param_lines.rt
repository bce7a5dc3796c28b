//! The lines of a parameter list.
ghost use Rattle.std.specs.Prelude.{◌≡◌, ◌<◌, ◌≤◌, ◌^◌, ◌∷◌, [], ◌++◌, length, map, None, Ok, Err, IfOk, IfErr, MatchResult, OnOk};
ghost use Rattle.tl_fault.specs.OrMemory.{OrMemory};
ghost use Rattle.tl_text.specs.Clean.{AreCleanIn};
ghost use Rattle.tl_text.specs.LineValue.{AreLinesIn, words_line};
ghost use Rattle.tl_text.specs.Lines.{lines_of};
ghost use Rattle.tl_text.specs.NameIndex.{place_of};
ghost use Rattle.tl_text.specs.Once.{AreOnce};
ghost use Rattle.param_list.specs.Parameters.{AreNamed};
ghost use Rattle.param_list.specs.ParamsText.{AreParamsOf, IsFirstRefusal};
ghost use Rattle.param_list.specs.Refusals.{refusal_of};

use crate::par_err::ParErr;
use crate::param_line::read_line;
use crate::params::Param;
use netlist::Flat;
use std::alloc::{AllocError, Global};
use tl_text::{Line, NameIndex, TextKey};

// Adds a parameter whose name is new, and adds the name to the earlier ones.
fn add(
    alloc: Global,
    seen: &mut NameIndex,
    params: &mut Vec<Param>,
    param: Param,
) -> Result<(), AllocError>
    requires { place_of seen.old param.name ≡ None }
    ensures seen { OnOk result (seen.new ≡ seen.old ++ param.name ∷ []) }
    ensures params { OnOk result (params.new.items ≡ params.old.items ++ param ∷ []) }
{
    seen.add(alloc, param.name.bytes())?;
    params.push(param)?;
    Ok(())
}

// The parameters of lines, given the names of the inputs and of the clock nets.
fn read_each(
    alloc: Global,
    text: &[u8],
    lines: &[Line],
    inputs: &NameIndex,
    clocks: &NameIndex,
) -> Result<Vec<Param>, ParErr>
    requires within { AreLinesIn text.now lines.now }
    requires clean { AreCleanIn text.now lines.now }
    requires few { length inputs.now < 2 ^ 32 }
    ensures params { IfOk result (λ params. AreParamsOf inputs.now clocks.now (map (words_line text.now) lines.now) params.items) }
    ensures named { IfOk result (λ params. AreNamed params.items) }
    ensures fault { IfErr result (OrMemory refusal_of (IsFirstRefusal inputs.now clocks.now (map (words_line text.now) lines.now))) }
{
    let mut seen = NameIndex::new(alloc, TextKey::of(text));
    let mut params = Vec::new(alloc);
    for line in lines {
        let param = read_line(alloc, text, line, inputs, clocks, &seen)?;
        add(alloc, &mut seen, &mut params, param)?;
    }
    Ok(params)
}

/// The parameters of the lines of a text, for a flat circuit whose inputs have different names. Time is linear in the text
/// and in the names of the inputs and the clock nets, on average over the hashes.
///
/// # Errors
/// The refusal of the first line that has one; `Memory` if memory runs out.
pub(crate) fn read_lines(
    alloc: Global,
    text: &[u8],
    lines: &[Line],
    flat: &Flat,
) -> Result<Vec<Param>, ParErr>
    requires within { AreLinesIn text.now lines.now }
    requires clean { AreCleanIn text.now lines.now }
    requires few { length flat.now.inputs < 2 ^ 32 }
    requires once { AreOnce flat.now.inputs }
    ensures params { IfOk result (λ params. AreParamsOf flat.now.inputs flat.now.clocks (map (words_line text.now) lines.now) params.items) }
    ensures named { IfOk result (λ params. AreNamed params.items) }
    ensures fault { IfErr result (OrMemory refusal_of (IsFirstRefusal flat.now.inputs flat.now.clocks (map (words_line text.now) lines.now))) }
{
    let inputs = NameIndex::of(alloc, &flat.inputs)?;
    let clocks = NameIndex::of(alloc, &flat.clocks)?;
    let params = read_each(alloc, text, lines, &inputs, &clocks)?;
    Ok(params)
}
