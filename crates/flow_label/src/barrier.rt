//! The cut that a search has found which met no node without a path.
ghost use Rattle.std.specs.Prelude.{◌≡◌, ◌<◌, ◌≤◌, length, MatchOption, OnOk};
ghost use Rattle.flow_label.specs.Barriers.{ascending_of, unmarked};

use crate::scratch::PathSearch;
use crate::stamped::Stamped;
use cut_sets::{FlatCut, MOST_LEAVES, joined_within};
use std::alloc::AllocError;

/// These nodes as a cut, if there are at most `k`.
pub fn cut_of(nodes: &[u32], k: u8) -> Option<FlatCut>
    requires { k ≤ MOST_LEAVES }
    ensures { MatchOption result (k < length (ascending_of nodes.now)) (λ cut. (cut ≡ ascending_of nodes.now) × (length cut ≤ k)) }
{
    let mut cut = FlatCut::empty();
    for m in nodes {
        match joined_within(&FlatCut::one(*m), &cut, usize::from(k)) {
            Some(larger) => cut = larger,
            None => return None,
        }
    }
    Some(cut)
}

// Keeps of these nodes those that have no mark.
fn keep_unmarked(nodes: &[u32], marks: &Stamped, kept: &mut Vec<u32>) -> Result<(), AllocError>
    ensures { OnOk result (kept.new.items ≡ unmarked marks.now nodes.now) }
{
    kept.clear();
    for m in nodes {
        if marks.get(*m) == 0 {
            kept.push(*m)?;
        }
    }
    Ok(())
}

/// Keeps of the nodes that were met those that were not passed.
///
/// # Errors
/// Only if memory runs out.
pub fn keep_unpassed(search: &mut PathSearch) -> Result<(), AllocError>
    ensures kept { OnOk result (search.new.kept.items ≡ unmarked search.old.passed search.old.queue.items) }
    ensures seen { search.new.seen ≡ search.old.seen }
    ensures passed { search.new.passed ≡ search.old.passed }
{
    keep_unmarked(&search.queue, &search.passed, &mut search.kept)
}
