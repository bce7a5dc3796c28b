//! Rows of cuts, one for each node.
ghost use Rattle.std.specs.Prelude.{◌≡◌, ◌+◌, ◌<◌, ◌≤◌, List, [], ◌∷◌, ◌++◌, ◌^◌, length, slice_range, Some, IfOk, OnOk, slice_get, slice_index_or, sum_by};
ghost use Rattle.list_laws.specs.Order.{IsAscending};
ghost use Rattle.cut_sets.specs.Keeps.{AreFlatCuts};
ghost use Rattle.cut_sets.specs.Rows.{row_at};
ghost use Rattle.cut_sets.specs.Signature.{signature_of};
ghost use Rattle.cut_sets.specs.Spans.{parts_of, StartsTo};

use crate::flat::FlatCut;
use crate::limits::{MOST_CUTS, MOST_LEAVES};
use std::alloc::{AllocError, Global};
use std::marker::Model;

/// Rows of cuts: one row for each node, in the order of the nodes.
///
/// All leaves are in one vector, one cut's after another's. Each cut has the place of its first leaf, and its signature. Each
/// row has the place of its first cut. A last place ends the last cut, and the last row.
#[derive(Drop)]
pub struct CutRows {
    leaves: Vec<u32>,
    starts: Vec<u32>,
    signatures: Vec<u64>,
    rows: Vec<u32>,
}

impl Model for CutRows {
    ghost use Rattle.std.specs.Prelude.{ℕ, List};
    ghost use Rattle.cut_sets.specs.Spans.{parts_of};
    ghost use Rattle.cut_sets.specs.Keeps.{AreFlatRows};

    ghost Value = { List (List (List ℕ)) };

    ghost view = { λ r. parts_of r.rows.items (parts_of r.starts.items r.leaves.items) };

    ghost invariant = { λ r. AreFlatRows r.leaves.items r.starts.items r.signatures.items r.rows.items };
}

// Appends a cut.
fn push_cut(
    leaves: &mut Vec<u32>,
    starts: &mut Vec<u32>,
    signatures: &mut Vec<u64>,
    cut: &FlatCut,
) -> Result<(), AllocError>
    requires flat { AreFlatCuts leaves.old.items starts.old.items signatures.old.items }
    requires room { length (parts_of starts.old.items leaves.old.items) < MOST_CUTS }
    ensures flat { OnOk result (AreFlatCuts leaves.new.items starts.new.items signatures.new.items) }
    ensures cuts { OnOk result (parts_of starts.new.items leaves.new.items ≡ parts_of starts.old.items leaves.old.items ++ cut.now ∷ []) }
{
    leaves.extend_from_slice(cut.leaves())?;
    starts.push(leaves.len() as u32)?;
    signatures.push(cut.signature())?;
    Ok(())
}

// Appends cuts.
fn push_cuts(
    leaves: &mut Vec<u32>,
    starts: &mut Vec<u32>,
    signatures: &mut Vec<u64>,
    cuts: &[FlatCut],
) -> Result<(), AllocError>
    requires flat { AreFlatCuts leaves.old.items starts.old.items signatures.old.items }
    requires room { length (parts_of starts.old.items leaves.old.items) + length cuts.now ≤ MOST_CUTS }
    ensures flat { OnOk result (AreFlatCuts leaves.new.items starts.new.items signatures.new.items) }
    ensures cuts { OnOk result (parts_of starts.new.items leaves.new.items ≡ parts_of starts.old.items leaves.old.items ++ cuts.now) }
{
    for cut in cuts {
        push_cut(leaves, starts, signatures, cut)?;
    }
    Ok(())
}

// The numbers between two places.
fn part(numbers: &[u32], start: usize, end: usize) -> &[u32]
    requires ordered { start ≤ end }
    requires inside { end ≤ length numbers.now }
    ensures { result.now ≡ slice_range numbers.now start end }
{
    &numbers[start..end]
}

// The leaves of the cut at a place among all cuts.
fn leaves_at<'a>(leaves: &'a [u32], starts: &[u32], place: usize) -> &'a [u32]
    requires starts { StartsTo (length leaves.now) starts.now }
    requires inside { place + 1 < length starts.now }
    ensures { result.now ≡ slice_index_or (parts_of starts.now leaves.now) place [] }
{
    part(leaves, starts[place] as usize, starts[place + 1] as usize)
}

// The cut at a place among all cuts.
fn cut_at(leaves: &[u32], starts: &[u32], signatures: &[u64], place: usize) -> FlatCut
    requires flat { AreFlatCuts leaves.now starts.now signatures.now }
    requires inside { place + 1 < length starts.now }
    ensures { result ≡ slice_index_or (parts_of starts.now leaves.now) place [] }
{
    let start = starts[place] as usize;
    let end = starts[place + 1] as usize;
    FlatCut::of_first(&leaves[start..], end - start, signatures[place])
}

// The place of a cut among all cuts.
fn place_of(rows: &[u32], n: u32, i: u32) -> usize
    requires inside { n + 1 < length rows.now }
    requires small { i < 2 ^ 32 }
    ensures { result ≡ slice_index_or rows.now n 0 + i }
{
    rows[n as usize] as usize + i as usize
}

impl CutRows {
    /// No rows.
    ///
    /// # Errors
    /// Only if memory runs out.
    pub fn new(alloc: Global) -> Result<CutRows, AllocError>
        ensures { IfOk result (λ r. r ≡ []) }
    {
        let mut starts = Vec::new(alloc);
        starts.push(0)?;
        let mut rows = Vec::new(alloc);
        rows.push(0)?;
        Ok(CutRows {
            leaves: Vec::new(alloc),
            starts,
            signatures: Vec::new(alloc),
            rows,
        })
    }

    /// The number of all cuts. Constant time.
    pub fn total(&self) -> usize
        ensures sum { result ≡ sum_by length self.now }
        ensures most { result ≤ MOST_CUTS }
    {
        self.signatures.len()
    }

    /// These rows and one more, of these cuts. Time is linear in the leaves of the cuts, on average over the calls.
    ///
    /// # Errors
    /// Only if memory runs out.
    pub fn with_row(self, cuts: &[FlatCut]) -> Result<CutRows, AllocError>
        requires { sum_by length self + length cuts.now ≤ MOST_CUTS }
        ensures { IfOk result (λ r. r ≡ self ++ cuts.now ∷ []) }
    {
        let CutRows {
            mut leaves,
            mut starts,
            mut signatures,
            mut rows,
        } = self;
        push_cuts(&mut leaves, &mut starts, &mut signatures, cuts)?;
        rows.push(signatures.len() as u32)?;
        Ok(CutRows {
            leaves,
            starts,
            signatures,
            rows,
        })
    }

    /// The number of cuts of a node: 0 past the last row. Constant time.
    pub fn count(&self, n: u32) -> u32
        ensures { result ≡ length (row_at self.now n) }
    {
        let n = n as usize;
        if n + 1 >= self.rows.len() {
            return 0;
        }
        self.rows[n + 1] - self.rows[n]
    }

    /// The leaves of a cut, in ascending order, without a copy. Constant time.
    pub fn leaves(&self, n: u32, i: u32) -> &[u32]
        requires { i < length (row_at self.now n) }
        ensures leaves { slice_get (row_at self.now n) i ≡ Some result.now }
        ensures ascending { IsAscending result.now }
        ensures few { length result.now ≤ MOST_LEAVES }
    {
        leaves_at(&self.leaves, &self.starts, place_of(&self.rows, n, i))
    }

    /// The signature of a cut. Constant time.
    pub fn signature(&self, n: u32, i: u32) -> u64
        requires { i < length (row_at self.now n) }
        ensures { result ≡ signature_of (slice_index_or (row_at self.now n) i []) }
    {
        self.signatures[place_of(&self.rows, n, i)]
    }

    /// The cut at a place of a node's row.
    pub fn cut(&self, n: u32, i: u32) -> FlatCut
        requires { i < length (row_at self.now n) }
        ensures { slice_get (row_at self.now n) i ≡ Some result }
    {
        let place = place_of(&self.rows, n, i);
        cut_at(&self.leaves, &self.starts, &self.signatures, place)
    }
}
