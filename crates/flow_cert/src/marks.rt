//! The nodes on two paths of a step.
//!
//! For a node that was met, `met` has the place of the first path that contains it, plus one.
ghost use Rattle.std.specs.Prelude.{◌≡◌, ℕ, ◌<◌, ◌≤◌, ◌+◌, ◌^◌, Bool, List, [], length, Some, slice_get};
ghost use Rattle.flow_cert.specs.Marks.{HasTaken, AreTaken, AreMarkedTo, AreMarked, FitStep};

use cert_check::{NodePath, Step};
use flow_label::Stamped;

// Visits a node of the path at a place. It is marked if an earlier path met it and it isn't the end of the path.
fn take_node(marks: &mut Vec<bool>, met: &mut Stamped, node: u32, place: u32, m: u32)
    requires marks { m < length marks.old.items }
    requires met { m < length met.old }
    requires small { place < 2 ^ 30 }
    ensures { HasTaken node place m marks.old.items met.old marks.new.items met.new }
{
    let first = met.get(m);
    if first == 0 {
        met.set(m, place + 1);
        return;
    }
    if first == place + 1 || m == node {
        return;
    }
    marks[m as usize] = true;
}

// Visits the nodes of the path at a place.
fn mark_path(marks: &mut Vec<bool>, met: &mut Stamped, step: &Step, place: u32, path: &NodePath)
    requires fit { FitStep step.now (length marks.old.items) }
    requires room { length met.old ≡ length marks.old.items }
    requires path { slice_get step.now.paths place ≡ Some path.now }
    requires small { place < 2 ^ 30 }
    requires taken { AreTaken step.now place [] met.old }
    ensures size { length marks.new.items ≡ length marks.old.items }
    ensures room { length met.new ≡ length met.old }
    ensures taken { AreTaken step.now (place + 1) [] met.new }
    ensures marked { (old : List Bool) → AreMarkedTo step.now place [] old marks.old.items → AreMarkedTo step.now (place + 1) [] old marks.new.items }
{
    for m in &path.nodes {
        take_node(marks, met, step.node, place, *m);
    }
}

/// Marks each node that is on two paths of a step and isn't their end.
pub fn mark_shared(marks: &mut Vec<bool>, met: &mut Stamped, step: &Step)
    requires fit { FitStep step.now (length marks.old.items) }
    requires room { length met.old ≡ length marks.old.items }
    requires few { length step.now.paths < 2 ^ 30 }
    ensures room { length met.new ≡ length met.old }
    ensures marked { AreMarked step.now marks.old.items marks.new.items }
{
    met.clear();
    for place in 0..step.paths.len() as u32 {
        mark_path(marks, met, step, place, &step.paths[place as usize]);
    }
}
