//! The balanced AND of a list of literals.
ghost use Rattle.std.specs.Prelude.{◌≡◌, ◌+◌, ◌*◌, ◌/◌, ◌<◌, ◌≤◌, length, IfOk, OnOk, All, Err};
ghost use Rattle.aig_core.specs.Aig.{IsLit, first_and};
ghost use Rattle.aig_core.specs.And.{with_pairs};
ghost use Rattle.aig_build.specs.CoverMade.{balanced_and};

use aig_core::{AigErr, Graph, Lit};

/// The balanced AND of a list. It is the constant 1 for an empty list and the literal itself for a list of one; otherwise it
/// is the product of the balanced ANDs of the two halves. The first half is built first and is at least as long as the
/// second.
///
/// The recursion depth is logarithmic in the length. After an `Err` the graph may contain some of the nodes.
pub fn balanced_and(graph: &mut Graph, lits: &[Lit]) -> Result<Lit, AigErr>
    requires { All (λ (lit : Lit). IsLit graph.old lit.0) lits.now }
    ensures lit { IfOk result (λ lit. lit.0 ≡ (balanced_and (first_and graph.old) graph.old.pairs lits.now).lit) }
    ensures pairs { OnOk result (graph.new ≡ with_pairs graph.old (balanced_and (first_and graph.old) graph.old.pairs lits.now).pairs) }
    ensures is_lit { IfOk result (λ lit. IsLit graph.new lit.0) }
    ensures full { result ≡ Err AigErr.Full → graph.old.max < length (balanced_and (first_and graph.old) graph.old.pairs lits.now).pairs }
{
    match lits {
        [] => Ok(Lit(1)),
        [lit] => Ok(*lit),
        _ => {
            let (front, back) = lits.split_at(lits.len().div_ceil(2));
            let x = balanced_and(graph, front)?;
            let y = balanced_and(graph, back)?;
            let lit = graph.and(x, y)?;
            Ok(lit)
        }
    }
}
