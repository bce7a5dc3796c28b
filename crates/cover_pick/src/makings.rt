//! LUTs by the least cost: two makings of bounded sets, with six covers each.
ghost use Rattle.std.specs.Prelude.{◌≡◌, ℕ, IfOk};
ghost use Rattle.aig_core.specs.Roots.{lits_of, AreRoots};
ghost use Rattle.cut_sets.specs.Labels.{label_at};
ghost use Rattle.bounded_cuts.specs.Making.{low_in, count_in, favoured_in};
ghost use Rattle.bounded_cuts.specs.Sets.{AreSets};
ghost use Rattle.cover_pick.specs.declared.rule.Rule.TheVariants.{LeastCost};
ghost use Rattle.cover_pick.specs.Picked.{ArePicked, CanMakeSets};
ghost use Rattle.cover_pick.specs.Rounds.{Sets};
ghost use Rattle.cover_pick.specs.Served.{IsServing};

use crate::choices::Choices;
use crate::flow::fan_outs;
use crate::light::sharing_tables;
use crate::lut::PickErr;
use crate::rounds::{cheaper, six_rounds};
use crate::tables::LutList;
use crate::uses::{needed_nodes, uses};
use aig_core::{Graph, Lit};
use bounded_cuts::{Wanted, bounded_sets};
use cut_sets::{CutRows, FlatCut, NodeLabels};
use std::alloc::{AllocError, Global};

// The sets for these counts and favoured nodes.
fn sets_for(
    alloc: Global,
    graph: &Graph,
    k: u8,
    labels: &NodeLabels,
    lows: &[FlatCut],
    counts: &[u32],
    favoured: &[bool],
) -> Result<CutRows, AllocError>
    requires { CanMakeSets graph.now k labels.now lows.now }
    ensures sets { IfOk result (AreSets graph.now k (label_at labels.now) (low_in lows.now) (count_in counts.now) (favoured_in favoured.now)) }
    ensures serving { IfOk result (IsServing LeastCost graph.now (label_at labels.now)) }
{
    let wanted = Wanted {
        graph,
        k,
        labels,
        lows,
        counts,
        favoured,
    };
    bounded_sets(alloc, &wanted)
}

/// The LUTs of the needed literals over the first of the least cost of twelve covers: six over the sets for the fan-outs, and six
/// over those for the uses in the first of least cost of these, with its nodes favoured.
///
/// # Errors
/// `Work` if their work exceeds the limit; `Memory` if memory runs out.
pub fn cheapest_tables(
    alloc: Global,
    graph: &Graph,
    k: u8,
    labels: &NodeLabels,
    lows: &[FlatCut],
    roots: &[Lit],
) -> Result<LutList, PickErr>
    requires sets { CanMakeSets graph.now k labels.now lows.now }
    requires roots { AreRoots graph.now (lits_of roots.now) }
    ensures { ArePicked (Sets k (low_in lows.now)) graph.now (label_at labels.now) (lits_of roots.now) result }
{
    // The contract of this call says that the graph's pairs are normal, which the least depth needs.
    let _count = graph.len();
    let fans = fan_outs(alloc, graph)?;
    let first = sets_for(alloc, graph, k, labels, lows, &fans, &[])?;
    let choices = Choices {
        graph,
        rows: &first,
        labels,
        roots,
    };
    let best = six_rounds(alloc, &choices, &fans)?;
    let used = uses(alloc, graph, &best)?;
    let needed = needed_nodes(alloc, graph, &best)?;
    let second = sets_for(alloc, graph, k, labels, lows, &used, &needed)?;
    let choices = Choices {
        graph,
        rows: &second,
        labels,
        roots,
    };
    let other = six_rounds(alloc, &choices, &used)?;
    let cuts = cheaper(graph, best, other);
    sharing_tables(alloc, graph, &cuts, roots)
}
