//! The netlist commands for the lines of a circuit.
ghost use Rattle.std.specs.Prelude.{◌≡◌, ◌/◌, [], ◌∷◌, IfOk};
ghost use Rattle.aiger_io.specs.CircuitLibrary.{cell_of, cover_command, zero_command, literal_command, latch_command, variable_name};

use crate::own_name::name_of;
use netlist::{Body, Cell, Command, Cover, Latch, Row};
use std::alloc::{AllocError, Global};
use tl_text::Name;

// The cell that a row needs for a literal's variable.
fn cell(l: u32) -> Cell
    ensures { result ≡ cell_of l }
{
    if l % 2 == 1 {
        return Cell::Zero;
    }
    Cell::One
}

// The name of a variable.
fn variable(alloc: Global, mark: &[u8], l: u32) -> Result<Name, AllocError>
    ensures { IfOk result (λ name. name ≡ variable_name mark.now (l / 2)) }
{
    name_of(alloc, mark, b'v', l / 2)
}

// A row with one cell.
fn row_of_one(alloc: Global, cell: Cell) -> Result<Row, AllocError>
    ensures { IfOk result (λ row. row.cells ≡ cell ∷ []) }
{
    let mut cells = Vec::new(alloc);
    cells.push(cell)?;
    Ok(Row { cells })
}

// A row with two cells.
fn row_of_two(alloc: Global, first: Cell, second: Cell) -> Result<Row, AllocError>
    ensures { IfOk result (λ row. row.cells ≡ first ∷ second ∷ []) }
{
    let mut cells = Vec::new(alloc);
    cells.push(first)?;
    cells.push(second)?;
    Ok(Row { cells })
}

// A cover with one row.
fn cover(
    alloc: Global,
    line: u32,
    inputs: Vec<Name>,
    output: Name,
    row: Row,
) -> Result<Command, AllocError>
    ensures { IfOk result (λ command. command ≡ cover_command line inputs.items output row.cells) }
{
    let mut rows = Vec::new(alloc);
    rows.push(row)?;
    Ok(Command {
        line,
        body: Body::Cover(Cover {
            inputs,
            output,
            value: true,
            rows,
        }),
    })
}

/// A cover without rows: the constant 0.
pub(crate) fn zero(alloc: Global, line: u32, output: Name) -> Command
    ensures { result ≡ zero_command line output }
{
    Command {
        line,
        body: Body::Cover(Cover {
            inputs: Vec::new(alloc),
            output,
            value: true,
            rows: Vec::new(alloc),
        }),
    }
}

/// A cover that copies an input to its variable.
pub(crate) fn buffer(
    alloc: Global,
    mark: &[u8],
    line: u32,
    own: u32,
    name: Name,
) -> Result<Command, AllocError>
    ensures { IfOk result (λ command. command ≡ cover_command line (name ∷ []) (variable_name mark.now (own / 2)) (Cell.One ∷ [])) }
{
    let output = variable(alloc, mark, own)?;
    let mut inputs = Vec::new(alloc);
    inputs.push(name)?;
    let row = row_of_one(alloc, Cell::One)?;
    cover(alloc, line, inputs, output, row)
}

/// A cover that gives the value of a literal to a name.
pub(crate) fn literal(
    alloc: Global,
    mark: &[u8],
    line: u32,
    l: u32,
    output: Name,
) -> Result<Command, AllocError>
    ensures { IfOk result (λ command. command ≡ literal_command mark.now line l output) }
{
    let input = variable(alloc, mark, l)?;
    let mut inputs = Vec::new(alloc);
    inputs.push(input)?;
    let row = row_of_one(alloc, cell(l))?;
    cover(alloc, line, inputs, output, row)
}

/// The cover of an AND gate.
pub(crate) fn gate(
    alloc: Global,
    mark: &[u8],
    line: u32,
    own: u32,
    left: u32,
    right: u32,
) -> Result<Command, AllocError>
    ensures { IfOk result (λ command. command ≡ cover_command line (variable_name mark.now (right / 2) ∷ variable_name mark.now (left / 2) ∷ []) (variable_name mark.now (own / 2)) (cell_of right ∷ cell_of left ∷ [])) }
{
    let output = variable(alloc, mark, own)?;
    let first = variable(alloc, mark, right)?;
    let second = variable(alloc, mark, left)?;
    let mut inputs = Vec::new(alloc);
    inputs.push(first)?;
    inputs.push(second)?;
    let row = row_of_two(alloc, cell(right), cell(left))?;
    cover(alloc, line, inputs, output, row)
}

/// A latch without a control net.
pub(crate) fn latch(line: u32, input: Name, output: Name, init: bool) -> Command
    ensures { result ≡ latch_command line input output init }
{
    Command {
        line,
        body: Body::Latch(Latch {
            input,
            output,
            control: None,
            init,
        }),
    }
}
