//! The least unions of the cuts of two lists.
//!
//! Unions are taken by size, the empty one first. So a kept cut contains none that is kept later, no cut is removed, and a
//! list that is too long stays too long.
//!
//! While unions of one size are taken, the kept cuts of fewer leaves are in a list of their own. Only one of these can be
//! contained in a union of this size, since two cuts of one size are equal or neither contains the other. If one of two
//! cuts has all leaves of their union, it contains the other. So the cuts of this size that contain one of the other
//! list are taken as they are, and only pairs of cuts that both have fewer leaves are joined. A cut that is taken so
//! contains no smaller union: that union would contain a smaller cut of the same list, and no cut of a list contains
//! another cut of it.
ghost use Rattle.std.specs.Prelude.{◌≡◌, ℕ, ◌+◌, ◌<◌, ◌≤◌, [], ◌++◌, false, length, OnOk, IfOk, IfErr};
ghost use Rattle.std.specs.List.{list_any};
ghost use Rattle.tl_fault.specs.OrMemory.{OrMemory};
ghost use Rattle.cut_enum.specs.Refusals.{refusal_of};
ghost use Rattle.cut_enum.specs.Merging.{AreApart, AreClear, IsTooMany, add as with_cut, add_holder as with_holder, add_holders as with_holders, add_union as with_union, add_unions as with_unions, add_pairs as with_pairs, unions_at, unions_below, merged as all_merged};
ghost use Rattle.cut_sets.specs.Unions.{subset};

use crate::level::Level;
use crate::limits::MOST_OF_A_NODE;
use crate::signed::{Signed, SignedPart, has_part};
use crate::table::CutErr;
use cut_sets::{FlatCut, MOST_LEAVES, joined};
use std::alloc::Global;

// Refuses a node that has too many cuts.
fn refuse_more(node: u32, smaller: &SignedPart<'_>, level: &Level) -> Result<(), CutErr>
    requires { length smaller.now ≤ MOST_OF_A_NODE }
    ensures few { OnOk result (length smaller.now + length level.now ≤ MOST_OF_A_NODE) }
    ensures too_many { IfErr result (OrMemory refusal_of (λ e. IsTooMany node (smaller.now ++ level.now) e)) }
{
    if level.len() > MOST_OF_A_NODE - smaller.cuts.len() {
        return Err(CutErr::NodeCuts(node));
    }
    Ok(())
}

// Adds a cut to those of its size, until the node has too many.
fn add_cut(
    node: u32,
    smaller: &SignedPart<'_>,
    cut: FlatCut,
    level: &mut Level,
) -> Result<(), CutErr>
    requires { length smaller.now + length level.old ≤ MOST_OF_A_NODE }
    ensures ok { OnOk result (level.new ≡ with_cut smaller.now cut level.old) }
    ensures few { OnOk result (length smaller.now + length level.new ≤ MOST_OF_A_NODE) }
    ensures too_many { IfErr result (OrMemory refusal_of (λ e. IsTooMany node (smaller.now ++ with_cut smaller.now cut level.old) e)) }
{
    level.add(smaller, cut)?;
    refuse_more(node, smaller, level)
}

// Adds a cut, if it has size leaves and one of some others is within it. None of the smaller ones is.
fn add_holder(
    node: u32,
    size: usize,
    smaller: &SignedPart<'_>,
    parts: &SignedPart<'_>,
    cut: &FlatCut,
    level: &mut Level,
) -> Result<(), CutErr>
    requires few { length smaller.now + length level.old ≤ MOST_OF_A_NODE }
    requires clear { length cut.now ≡ size → list_any (λ c. subset c cut.now) smaller.now ≡ false }
    ensures ok { OnOk result (level.new ≡ with_holder size smaller.now parts.now cut.now level.old) }
    ensures few { OnOk result (length smaller.now + length level.new ≤ MOST_OF_A_NODE) }
    ensures too_many { IfErr result (OrMemory refusal_of (λ e. IsTooMany node (smaller.now ++ with_holder size smaller.now parts.now cut.now level.old) e)) }
{
    if cut.len() != size {
        return Ok(());
    }
    if !has_part(parts, cut) {
        return Ok(());
    }
    level.put(cut.copy())?;
    refuse_more(node, smaller, level)
}

// Adds the cuts of size leaves of a list that have one of some others within them.
fn add_holders(
    node: u32,
    size: usize,
    smaller: &SignedPart<'_>,
    parts: &SignedPart<'_>,
    cuts: &[FlatCut],
    level: &mut Level,
) -> Result<(), CutErr>
    requires few { length smaller.now + length level.old ≤ MOST_OF_A_NODE }
    requires clear { AreClear size smaller.now cuts.now }
    ensures ok { OnOk result (level.new ≡ with_holders size smaller.now parts.now cuts.now level.old) }
    ensures few { OnOk result (length smaller.now + length level.new ≤ MOST_OF_A_NODE) }
    ensures too_many { IfErr result (OrMemory refusal_of (λ e. IsTooMany node (smaller.now ++ with_holders size smaller.now parts.now cuts.now level.old) e)) }
{
    for cut in cuts {
        add_holder(node, size, smaller, parts, cut, level)?;
    }
    Ok(())
}

// Adds the union of c and d, if it has size leaves.
fn add_union(
    node: u32,
    size: usize,
    smaller: &SignedPart<'_>,
    c: &FlatCut,
    d: &FlatCut,
    level: &mut Level,
) -> Result<(), CutErr>
    requires size { size ≤ MOST_LEAVES }
    requires few { length smaller.now + length level.old ≤ MOST_OF_A_NODE }
    ensures ok { OnOk result (level.new ≡ with_union size smaller.now c.now d.now level.old) }
    ensures few { OnOk result (length smaller.now + length level.new ≤ MOST_OF_A_NODE) }
    ensures too_many { IfErr result (OrMemory refusal_of (λ e. IsTooMany node (smaller.now ++ with_union size smaller.now c.now d.now level.old) e)) }
{
    match joined(d, c, size) {
        None => Ok(()),
        Some(cut) => {
            add_cut(node, smaller, cut, level)?;
            Ok(())
        }
    }
}

// Adds the unions of size leaves of c and each of ds. Where two signatures have more bits, no leaf is looked at.
fn add_unions(
    node: u32,
    size: usize,
    smaller: &SignedPart<'_>,
    c: &FlatCut,
    ds: &SignedPart<'_>,
    level: &mut Level,
) -> Result<(), CutErr>
    requires size { size ≤ MOST_LEAVES }
    requires few { length smaller.now + length level.old ≤ MOST_OF_A_NODE }
    ensures ok { OnOk result (level.new ≡ with_unions size smaller.now c.now ds.now level.old) }
    ensures few { OnOk result (length smaller.now + length level.new ≤ MOST_OF_A_NODE) }
    ensures too_many { IfErr result (OrMemory refusal_of (λ e. IsTooMany node (smaller.now ++ with_unions size smaller.now c.now ds.now level.old) e)) }
{
    let signature = c.signature();
    let cuts = ds.cuts;
    for (i, other) in ds.signatures.iter().enumerate() {
        let both = *other | signature;
        if both.count_ones() as usize > size {
            continue;
        }
        add_union(node, size, smaller, c, &cuts[i], level)?;
    }
    Ok(())
}

// Adds the unions of size leaves of a cut of each list.
fn add_pairs(
    node: u32,
    size: usize,
    smaller: &SignedPart<'_>,
    cs: &[FlatCut],
    ds: &SignedPart<'_>,
    level: &mut Level,
) -> Result<(), CutErr>
    requires size { size ≤ MOST_LEAVES }
    requires few { length smaller.now + length level.old ≤ MOST_OF_A_NODE }
    ensures ok { OnOk result (level.new ≡ with_pairs size smaller.now cs.now ds.now level.old) }
    ensures few { OnOk result (length smaller.now + length level.new ≤ MOST_OF_A_NODE) }
    ensures too_many { IfErr result (OrMemory refusal_of (λ e. IsTooMany node (smaller.now ++ with_pairs size smaller.now cs.now ds.now level.old) e)) }
{
    for c in cs {
        add_unions(node, size, smaller, c, ds, level)?;
    }
    Ok(())
}

// Leaves in the level the least unions of size leaves of a cut of each list, beside those that have fewer.
fn unions_of_size(
    node: u32,
    size: usize,
    xs: &Signed,
    ys: &Signed,
    smaller: &SignedPart<'_>,
    level: &mut Level,
) -> Result<(), CutErr>
    requires size { size ≤ MOST_LEAVES }
    requires few { length smaller.now ≤ MOST_OF_A_NODE }
    requires x_apart { AreApart xs.now }
    requires y_apart { AreApart ys.now }
    requires smaller { smaller.now ≡ unions_below size xs.now ys.now }
    ensures ok { OnOk result (level.new ≡ unions_at size smaller.now xs.now ys.now) }
    ensures few { OnOk result (length smaller.now + length level.new ≤ MOST_OF_A_NODE) }
    ensures too_many { IfErr result (OrMemory refusal_of (λ e. IsTooMany node (smaller.now ++ unions_at size smaller.now xs.now ys.now) e)) }
{
    level.clear();
    let xs_below = xs.leading(size);
    let ys_below = ys.leading(size);
    let ys_parts = ys.leading(size + 1);
    add_holders(node, size, smaller, &ys_parts, xs.cuts(), level)?;
    add_holders(node, size, smaller, &xs_below, ys.cuts(), level)?;
    add_pairs(node, size, smaller, xs_below.cuts, &ys_below, level)
}

// The least unions of a cut of each list, of at most k leaves: the cuts of a node. What the level has is of no account.
pub fn merged(
    alloc: Global,
    node: u32,
    k: u8,
    xs: &Signed,
    ys: &Signed,
    level: &mut Level,
) -> Result<Vec<FlatCut>, CutErr>
    requires few { k ≤ MOST_LEAVES }
    requires x_apart { AreApart xs.now }
    requires y_apart { AreApart ys.now }
    ensures ok { IfOk result (λ cuts. cuts.items ≡ all_merged k xs.now ys.now) }
    ensures few { IfOk result (λ cuts. length cuts.items ≤ MOST_OF_A_NODE) }
    ensures too_many { IfErr result (OrMemory refusal_of (λ e. IsTooMany node (all_merged k xs.now ys.now) e)) }
{
    let mut cuts = Signed::new(alloc);
    for size in 0..k + 1 {
        unions_of_size(node, size as usize, xs, ys, &cuts.all(), level)?;
        cuts = cuts.extended(level)?;
    }
    Ok(cuts.into_cuts())
}
