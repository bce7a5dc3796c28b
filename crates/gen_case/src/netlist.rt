//! The gates of a multiplier: partial products, rows of full adders, and copies of the digits of the product.
ghost use Rattle.std.specs.Prelude.{◌≡◌, ◌<◌, ◌≤◌, ◌++◌, OnOk, string_bytes};
ghost use Rattle.std.specs.List.{flat_map};
ghost use Rattle.gen_case.specs.Lines.{line_text, text_of, below};
ghost use Rattle.gen_case.specs.Netlist.{partial_lines, from_before as from_before_of, carry_in as carry_in_of, adder_line, adder_lines, source_of as source_net, output_lines, all_partials, all_adders, all_outputs};

use crate::net::{Bus, CaseNet};
use std::alloc::AllocError;

// Adds the AND of the digit `i` of the data and the digit `j` of the coefficient.
fn add_partial(text: &mut String, j: u32, i: u32) -> Result<(), AllocError>
    ensures { OnOk result (string_bytes text.new ≡ string_bytes text.old ++ text_of (partial_lines j i)) }
{
    write!(
        text,
        ".names {} {} {}\n11 1\n",
        CaseNet::Digit(Bus::Data, i),
        CaseNet::Digit(Bus::Coefficient, j),
        CaseNet::Partial(i, j)
    )
}

// Adds the partial products of a row.
fn add_partial_row(text: &mut String, n: u32, j: u32) -> Result<(), AllocError>
    ensures { OnOk result (string_bytes text.new ≡ string_bytes text.old ++ text_of (flat_map (partial_lines j) (below n))) }
{
    for i in 0..n {
        add_partial(text, j, i)?;
    }
    Ok(())
}

// Adds the partial products of all rows.
pub fn add_partials(text: &mut String, n: u32) -> Result<(), AllocError>
    ensures { OnOk result (string_bytes text.new ≡ string_bytes text.old ++ text_of (all_partials n)) }
{
    for j in 0..n {
        add_partial_row(text, n, j)?;
    }
    Ok(())
}

// The net that a row adds to at a place: a result of the rows before it.
fn from_before(n: u32, j: u32, i: u32) -> CaseNet
    requires row { 1 ≤ j }
    requires place { i < n }
    ensures { result ≡ from_before_of n j i }
{
    if j == 1 {
        return if i == n - 1 {
            CaseNet::Zero
        } else {
            CaseNet::Partial(i + 1, 0)
        };
    }
    if i == n - 1 {
        CaseNet::Carry(j - 1, n - 1)
    } else {
        CaseNet::Sum(j - 1, i + 1)
    }
}

// The carry bit from the next lower place in a row.
fn carry_in(j: u32, i: u32) -> CaseNet
    ensures { result ≡ carry_in_of j i }
{
    if i == 0 {
        CaseNet::Zero
    } else {
        CaseNet::Carry(j, i - 1)
    }
}

// Adds the full adder of a row at a place, which adds its partial product and two nets.
fn add_adder_of(
    text: &mut String,
    before: CaseNet,
    carry: CaseNet,
    j: u32,
    i: u32,
) -> Result<(), AllocError>
    ensures { OnOk result (string_bytes text.new ≡ string_bytes text.old ++ line_text (adder_line before carry j i)) }
{
    write!(
        text,
        ".subckt fa a={before} b={} c={carry} s={} k={}\n",
        CaseNet::Partial(i, j),
        CaseNet::Sum(j, i),
        CaseNet::Carry(j, i)
    )
}

// Adds the full adder of a row at a place.
fn add_adder(text: &mut String, n: u32, j: u32, i: u32) -> Result<(), AllocError>
    requires row { 1 ≤ j }
    requires place { i < n }
    ensures { OnOk result (string_bytes text.new ≡ string_bytes text.old ++ text_of (adder_lines n j i)) }
{
    add_adder_of(text, from_before(n, j, i), carry_in(j, i), j, i)
}

// Adds the full adders of a row.
fn add_adder_row(text: &mut String, n: u32, j: u32) -> Result<(), AllocError>
    requires { 1 ≤ j }
    ensures { OnOk result (string_bytes text.new ≡ string_bytes text.old ++ text_of (flat_map (adder_lines n j) (below n))) }
{
    for i in 0..n {
        add_adder(text, n, j, i)?;
    }
    Ok(())
}

// Adds the full adders of all rows from 1 on.
pub fn add_adders(text: &mut String, n: u32) -> Result<(), AllocError>
    requires { 1 ≤ n }
    ensures { OnOk result (string_bytes text.new ≡ string_bytes text.old ++ text_of (all_adders n)) }
{
    for j in 1..n {
        add_adder_row(text, n, j)?;
    }
    Ok(())
}

// The net that drives a digit of the product.
fn source_of(n: u32, t: u32) -> CaseNet
    requires low { 1 ≤ n }
    requires high { n ≤ 32 }
    ensures { result ≡ source_net n t }
{
    if t == 0 {
        return CaseNet::Partial(0, 0);
    }
    if n == 1 {
        return CaseNet::Zero;
    }
    if t < n {
        return CaseNet::Sum(t, 0);
    }
    if t < 2 * n - 1 {
        return CaseNet::Sum(n - 1, t - n + 1);
    }
    CaseNet::Carry(n - 1, n - 1)
}

// Adds the buffer of a digit of the product.
fn add_output(text: &mut String, n: u32, t: u32) -> Result<(), AllocError>
    requires low { 1 ≤ n }
    requires high { n ≤ 32 }
    ensures { OnOk result (string_bytes text.new ≡ string_bytes text.old ++ text_of (output_lines n t)) }
{
    write!(
        text,
        ".names {} {}\n1 1\n",
        source_of(n, t),
        CaseNet::Digit(Bus::Product, t)
    )
}

// Adds the buffers of all digits of the product.
pub fn add_outputs(text: &mut String, n: u32) -> Result<(), AllocError>
    requires low { 1 ≤ n }
    requires high { n ≤ 32 }
    ensures { OnOk result (string_bytes text.new ≡ string_bytes text.old ++ text_of (all_outputs n)) }
{
    for t in 0..2 * n {
        add_output(text, n, t)?;
    }
    Ok(())
}
