//! The public calls.
ghost use Rattle.std.specs.Prelude.{◌≡◌, ◌≤◌, IfOk};
ghost use Rattle.aig_core.specs.Aig.{node_count};
ghost use Rattle.aig_core.specs.Roots.{lits_of, roots_of, AreRoots};
ghost use Rattle.cert_check.specs.Valid.{IsValid};
ghost use Rattle.cert_check.specs.WrittenText.{IsWritable};
ghost use Rattle.cut_sets.specs.Covers.{IsLeastDepth};
ghost use Rattle.cut_sets.specs.Labels.{label_at, AreLeastHeights};
ghost use Rattle.cut_enum.specs.Table.{AreRows};
ghost use Rattle.depth_label.specs.Label.{label_of, AreLabelled};
ghost use Rattle.flow_cert.specs.Needed.{AreLabelClaims, AreNeeded, HasOneClaiming};

use crate::steps::steps_of;
use crate::target::target_of;
use aig_core::{Graph, Lit, Roots};
use cert_check::Certificate;
use cut_enum::CutTable;
use cut_sets::NodeLabels;
use depth_label::Labels;
use std::alloc::{AllocError, Global};

// All roots in order.
fn all_roots(alloc: Global, roots: &Roots) -> Result<Vec<Lit>, AllocError>
    ensures { IfOk result (λ all. lits_of all.items ≡ roots_of roots.now) }
{
    let mut all = Vec::new(alloc);
    all.extend_from_slice(&roots.outputs)?;
    all.extend_from_slice(&roots.next)?;
    Ok(all)
}

/// A certificate that no cover of the graph by LUTs of at most `k` inputs is less deep than these labels say, which are least
/// heights, as crate `flow_label` finds them without a table of cuts.
///
/// # Errors
/// Only if memory runs out.
pub fn certify_by_flow(
    alloc: Global,
    graph: &Graph,
    roots: &Roots,
    labels: &NodeLabels,
    k: u8,
) -> Result<Certificate, AllocError>
    requires heights { AreLeastHeights graph.now k (label_at labels.now) }
    requires roots { AreRoots graph.now (roots_of roots.now) }
    ensures valid { IfOk result (IsValid graph.now (roots_of roots.now) k) }

    // Its depth is the least depth of any cover.
    ensures depth { IfOk result (λ cert. IsLeastDepth graph.now k (roots_of roots.now) cert.depth) }

    // Each claim is the label of its node, and exactly the nodes whose claims are needed have one. For given paths there is
    // exactly one such set of nodes.
    ensures claims { IfOk result (λ cert. AreLabelClaims (label_at labels.now) cert) }
    ensures needed { IfOk result (λ cert. AreNeeded graph.now (roots_of roots.now) (label_at labels.now) cert) }
    ensures once { HasOneClaiming graph.now (roots_of roots.now) (label_at labels.now) }

    // Its text, once written, can be read.
    ensures formed { IfOk result IsWritable }
{
    // The proof needs what the contract of this call says of the graph.
    let _count = graph.len();
    let all = all_roots(alloc, roots)?;
    let least = target_of(graph, labels, &all);
    let steps = steps_of(alloc, graph, labels, k, least.begin)?;
    Ok(Certificate {
        depth: least.depth,
        steps,
    })
}

/// A certificate that no cover of the graph by LUTs of at most `k` inputs is less deep than its labels say, which come from
/// the table of its cuts.
///
/// # Errors
/// Only if memory runs out.
pub fn certify(
    alloc: Global,
    graph: &Graph,
    roots: &Roots,
    table: &CutTable,
    labels: &Labels,
    k: u8,
) -> Result<Certificate, AllocError>
    requires k { 2 ≤ k }
    requires rows { AreRows graph.now k (node_count graph.now) table.now }
    requires labels { AreLabelled graph.now table.now labels.now }
    requires roots { AreRoots graph.now (roots_of roots.now) }
    ensures valid { IfOk result (IsValid graph.now (roots_of roots.now) k) }

    // Its depth is the least depth of any cover.
    ensures depth { IfOk result (λ cert. IsLeastDepth graph.now k (roots_of roots.now) cert.depth) }

    // Each claim is the label of its node, and exactly the nodes whose claims are needed have one. For given paths there is
    // exactly one such set of nodes.
    ensures claims { IfOk result (λ cert. AreLabelClaims (label_of labels.now) cert) }
    ensures needed { IfOk result (λ cert. AreNeeded graph.now (roots_of roots.now) (label_of labels.now) cert) }
    ensures once { HasOneClaiming graph.now (roots_of roots.now) (label_of labels.now) }

    // Its text, once written, can be read.
    ensures formed { IfOk result IsWritable }
{
    // The proof needs what the contract of this call says of the graph.
    let _count = graph.len();
    certify_by_flow(alloc, graph, roots, labels.node_labels(), k)
}
