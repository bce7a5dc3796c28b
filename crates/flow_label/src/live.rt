//! Which nodes a regular source is below.
ghost use Rattle.std.specs.Prelude.{◌≡◌, ℕ, ◌<◌, true, false};
ghost use Rattle.aig_core.specs.Aig.{node_count};
ghost use Rattle.cut_sets.specs.Labels.{label_at};
ghost use Rattle.flow_label.specs.Value.{IsLive};

use aig_core::{Graph, Kind};
use cut_sets::NodeLabels;

/// Whether the node is a regular source, or an AND node with a label of at least 1.
pub fn is_live(graph: &Graph, labels: &NodeLabels, m: u32) -> bool
    requires { m < node_count graph.now }
    ensures yes { result ≡ true → IsLive graph.now (label_at labels.now) m }
    ensures no { result ≡ false → IsLive graph.now (label_at labels.now) m → ⊥ }
{
    if m == 0 {
        return false;
    }
    if m > graph.sources() {
        return labels.label(m) > 0;
    }
    match graph.kind(m) {
        Kind::Regular => true,
        Kind::Parameter => false,
    }
}
