//! The first and the last lines of the netlist of a multiplier.
ghost use Rattle.std.specs.Prelude.{◌≡◌, ◌++◌, ◌≤◌, OnOk, string_bytes};
ghost use Rattle.gen_case.specs.Lines.{line_text, text_of};
ghost use Rattle.gen_case.specs.Netlist.{bus_names, inputs_line, outputs_line, head_lines, end_lines};
ghost use Rattle.gen_case.specs.Steps.{after_blanks};

use crate::net::{Bus, CaseNet};
use std::alloc::AllocError;

// Adds the names of the first `n` digits of a number, each after a blank.
fn add_bus(text: &mut String, bus: Bus, n: u32) -> Result<(), AllocError>
    ensures { OnOk result (string_bytes text.new ≡ string_bytes text.old ++ after_blanks (bus_names bus n)) }
{
    for place in 0..n {
        write!(text, " {}", CaseNet::Digit(bus, place))?;
    }
    Ok(())
}

// Adds the line of the inputs: the data, then the coefficient.
fn add_inputs(text: &mut String, n: u32) -> Result<(), AllocError>
    ensures { OnOk result (string_bytes text.new ≡ string_bytes text.old ++ line_text (inputs_line n)) }
{
    text.push_str(".inputs")?;
    add_bus(text, Bus::Data, n)?;
    add_bus(text, Bus::Coefficient, n)?;
    text.push_str("\n")?;
    Ok(())
}

// Adds the line of the outputs: the product.
fn add_outputs(text: &mut String, n: u32) -> Result<(), AllocError>
    requires { n ≤ 32 }
    ensures { OnOk result (string_bytes text.new ≡ string_bytes text.old ++ line_text (outputs_line n)) }
{
    text.push_str(".outputs")?;
    add_bus(text, Bus::Product, 2 * n)?;
    text.push_str("\n")?;
    Ok(())
}

// Adds the lines before the partial products.
pub fn add_head(text: &mut String, n: u32) -> Result<(), AllocError>
    requires { n ≤ 32 }
    ensures { OnOk result (string_bytes text.new ≡ string_bytes text.old ++ text_of (head_lines n)) }
{
    text.push_str(".model mul\n")?;
    add_inputs(text, n)?;
    add_outputs(text, n)?;
    text.push_str(".names zero\n")?;
    Ok(())
}

// Adds the end of the multiplier, and the model of a full adder.
pub fn add_end(text: &mut String) -> Result<(), AllocError>
    ensures { OnOk result (string_bytes text.new ≡ string_bytes text.old ++ text_of end_lines) }
{
    text.push_str(
        ".end
.model fa
.inputs a b c
.outputs s k
.names a b c s
100 1
010 1
001 1
111 1
.names a b c k
11- 1
1-1 1
-11 1
.end
",
    )
}
