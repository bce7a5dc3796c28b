//! Rows and covers as AND nodes.
ghost use Rattle.std.specs.Prelude.{◌≡◌, ◌+◌, ◌*◌, ◌/◌, ◌<◌, ◌≤◌, [], ◌++◌, length, IfOk, OnOk, All, Err};
ghost use Rattle.aig_core.specs.Aig.{IsLit, first_and};
ghost use Rattle.aig_core.specs.And.{with_pairs};
ghost use Rattle.netlist.specs.CoverValue.{RowValue};
ghost use Rattle.aig_build.specs.CoverGraph.{cell_literals, row_literals};
ghost use Rattle.aig_build.specs.CoverMade.{row_made, rows_made, cover_of};

use crate::balanced::balanced_and;
use aig_core::{AigErr, Graph, Lit};
use netlist::{Cell, Cover, Row};
use std::alloc::{AllocError, Global};

// Adds the literal that a cell requires of its input: none, the literal, or its complement.
fn push_cell(lits: &mut Vec<Lit>, cell: Cell, input: Lit) -> Result<(), AllocError>
    ensures { OnOk result (lits.new.items ≡ lits.old.items ++ cell_literals cell input) }
{
    match cell {
        Cell::Zero => lits.push(input.complement())?,
        Cell::One => lits.push(input)?,
        Cell::Any => {}
    }
    Ok(())
}

// Replaces `lits` by the literals of a row, from left to right.
fn row_literals(lits: &mut Vec<Lit>, row: &Row, inputs: &[Lit]) -> Result<(), AllocError>
    requires { length row.now.cells ≡ length inputs.now }
    ensures { OnOk result (lits.new.items ≡ row_literals row.now.cells inputs.now) }
{
    lits.clear();
    let cells = &row.cells;
    for i in 0..cells.len() {
        push_cell(lits, cells[i], inputs[i])?;
    }
    Ok(())
}

// The balanced AND of a row's literals.
fn make_row(
    graph: &mut Graph,
    row: &Row,
    inputs: &[Lit],
    scratch: &mut Vec<Lit>,
) -> Result<Lit, AigErr>
    requires cells { length row.now.cells ≡ length inputs.now }
    requires members { All (λ (input : Lit). IsLit graph.old input.0) inputs.now }
    ensures lit { IfOk result (λ lit. lit.0 ≡ (row_made (first_and graph.old) graph.old.pairs row.now.cells inputs.now).lit) }
    ensures pairs { OnOk result (graph.new ≡ with_pairs graph.old (row_made (first_and graph.old) graph.old.pairs row.now.cells inputs.now).pairs) }
    ensures is_lit { IfOk result (λ lit. IsLit graph.new lit.0) }
    ensures full { result ≡ Err AigErr.Full → graph.old.max < length (row_made (first_and graph.old) graph.old.pairs row.now.cells inputs.now).pairs }
{
    row_literals(scratch, row, inputs)?;
    balanced_and(graph, scratch)
}

// Replaces `lits` by the complements of the rows, which are built in order.
fn make_rows(
    graph: &mut Graph,
    rows: &[Row],
    inputs: &[Lit],
    lits: &mut Vec<Lit>,
    scratch: &mut Vec<Lit>,
) -> Result<(), AigErr>
    requires cells { All (λ (row : RowValue). length row.cells ≡ length inputs.now) rows.now }
    requires members { All (λ (input : Lit). IsLit graph.old input.0) inputs.now }
    ensures lits { OnOk result (lits.new.items ≡ (rows_made (first_and graph.old) graph.old.pairs rows.now inputs.now).lits) }
    ensures pairs { OnOk result (graph.new ≡ with_pairs graph.old (rows_made (first_and graph.old) graph.old.pairs rows.now inputs.now).pairs) }
    ensures are_lits { OnOk result (All (λ (lit : Lit). IsLit graph.new lit.0) lits.new.items) }
    ensures full { result ≡ Err AigErr.Full → graph.old.max < length (rows_made (first_and graph.old) graph.old.pairs rows.now inputs.now).pairs }
{
    lits.clear();
    for row in rows {
        let lit = make_row(graph, row, inputs, scratch)?;
        lits.push(lit.complement())?;
    }
    Ok(())
}

/// Literals reused from cover to cover, so that rows and covers allocate no memory.
#[derive(Drop)]
pub(crate) struct Scratch {
    row: Vec<Lit>,
    rows: Vec<Lit>,
}

impl Scratch {
    /// No literals yet.
    pub(crate) fn new(alloc: Global) -> Scratch {
        Scratch {
            row: Vec::new(alloc),
            rows: Vec::new(alloc),
        }
    }
}

/// Builds a cover over the literals of its inputs. Each row is the balanced AND of the literals of its cells. The cover is
/// the complement of the balanced AND of the complements of the rows, complemented once more if the rows are the off-set.
///
/// Time is linear in the number of cells, apart from the lookup of each product. After an `Err` the graph may contain some of
/// the nodes.
pub(crate) fn make_into(
    graph: &mut Graph,
    cover: &Cover,
    inputs: &[Lit],
    scratch: &mut Scratch,
) -> Result<Lit, AigErr>
    requires members { All (λ (input : Lit). IsLit graph.old input.0) inputs.now }
    requires cells { All (λ (row : RowValue). length row.cells ≡ length inputs.now) cover.now.rows }
    ensures lit { IfOk result (λ lit. lit.0 ≡ (cover_of graph.old cover.now inputs.now).lit) }
    ensures pairs { OnOk result (graph.new ≡ with_pairs graph.old (cover_of graph.old cover.now inputs.now).pairs) }
    ensures is_lit { IfOk result (λ lit. IsLit graph.new lit.0) }
    ensures full { result ≡ Err AigErr.Full → graph.old.max < length (cover_of graph.old cover.now inputs.now).pairs }
{
    make_rows(
        graph,
        &cover.rows,
        inputs,
        &mut scratch.rows,
        &mut scratch.row,
    )?;
    let none = balanced_and(graph, &scratch.rows)?;
    let some = none.complement();
    let lit = if cover.value { some } else { some.complement() };
    Ok(lit)
}
