//! The texts of a multiplier with a changing coefficient.
ghost use Rattle.std.specs.Prelude.{◌≡◌, ◌≤◌, IfOk, string_bytes};
ghost use Rattle.gen_case.specs.Case.{IsShort};
ghost use Rattle.gen_case.specs.Lines.{text_of};
ghost use Rattle.gen_case.specs.Netlist.{netlist_lines};
ghost use Rattle.gen_case.specs.Script.{all_params, script_lines};

use crate::case::Case;
use crate::changes::{add_params, add_rounds};
use crate::head::{add_end, add_head};
use crate::netlist::{add_adders, add_outputs, add_partials};
use std::alloc::{AllocError, Global};

// The netlist.
fn netlist_text(alloc: Global, n: u32) -> Result<String, AllocError>
    requires low { 1 ≤ n }
    requires high { n ≤ 32 }
    ensures { IfOk result (λ text. string_bytes text ≡ text_of (netlist_lines n)) }
{
    let mut text = String::new(alloc);
    add_head(&mut text, n)?;
    add_partials(&mut text, n)?;
    add_adders(&mut text, n)?;
    add_outputs(&mut text, n)?;
    add_end(&mut text)?;
    Ok(text)
}

// The parameter list.
fn params_text(alloc: Global, n: u32, seed: u32) -> Result<String, AllocError>
    requires { n ≤ 32 }
    ensures { IfOk result (λ text. string_bytes text ≡ text_of (all_params n seed)) }
{
    let mut text = String::new(alloc);
    add_params(&mut text, n, seed)?;
    Ok(text)
}

// The script.
fn script_text(alloc: Global, n: u32, seed: u32) -> Result<String, AllocError>
    requires { n ≤ 32 }
    ensures { IfOk result (λ text. string_bytes text ≡ text_of (script_lines n seed)) }
{
    let mut text = String::new(alloc);
    add_rounds(&mut text, n, seed, 100)?;
    Ok(text)
}

/// The case of a multiplier of `n` digits and a seed: its netlist, its parameter list with the digits of the seed, and a
/// script of a hundred rounds, byte for byte. Each text is within the limits of its reader. Time and memory are linear in the
/// square of `n`.
///
/// `Err` only if memory runs out.
pub fn multiplier(alloc: Global, n: u32, seed: u32) -> Result<Case, AllocError>
    requires low { 1 ≤ n }
    requires high { n ≤ 32 }
    ensures netlist { IfOk result (λ made. made.netlist ≡ text_of (netlist_lines n)) }
    ensures params { IfOk result (λ made. made.params ≡ text_of (all_params n seed)) }
    ensures script { IfOk result (λ made. made.script ≡ text_of (script_lines n seed)) }
    ensures short { IfOk result (λ made. IsShort made) }
{
    let netlist = netlist_text(alloc, n)?;
    let params = params_text(alloc, n, seed)?;
    let script = script_text(alloc, n, seed)?;
    Ok(Case {
        netlist: netlist.into_bytes(),
        params: params.into_bytes(),
        script: script.into_bytes(),
    })
}
