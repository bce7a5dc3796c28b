//! The check of a step.
ghost use Rattle.std.specs.Prelude.{◌≡◌, ℕ, ◌<◌, ◌≤◌, length, slice_index, MatchResult, IfErr, OnOk};
ghost use Rattle.aig_core.specs.Aig.{node_count, IsAnd};
ghost use Rattle.cert_check.specs.Faults.{StepFault};
ghost use Rattle.cert_check.specs.Stamps.{IsPathTaken, IsPathFault};
ghost use Rattle.cert_check.specs.Valid.{path_count, IsJustified};

use crate::cert_err::CertErr;
use crate::certificate::{NodePath, Step};
use crate::path_check::is_path;
use crate::sharing::{first_clash, stamp};
use aig_core::Graph;

// The number of paths that a claim requires.
fn paths_needed(k: u8, claim: u32) -> usize
    ensures { result ≡ path_count k claim }
{
    if claim == 1 { 1 } else { k as usize + 1 }
}

// Checks a path of a step. The nodes of the paths before it are stamped.
fn check_path(
    graph: &Graph,
    claims: &[u32],
    stamps: &mut Vec<u32>,
    step: &Step,
    path: &NodePath,
) -> Result<(), CertErr>
    requires node { step.now.node < node_count graph.now }
    requires claims { length claims.now ≡ node_count graph.now }
    requires stamps { length stamps.old.items ≡ node_count graph.now }
    ensures { MatchResult result
        (λ _. IsPathTaken graph.now claims.now step.now path.now stamps.old.items stamps.new.items)
        (λ e. IsPathFault graph.now claims.now step.now path.now stamps.old.items e) }
{
    if !is_path(graph, &path.nodes, step.node) {
        return Err(CertErr::BadPath(path.line));
    }
    match first_clash(stamps, claims, step.node, step.claim, &path.nodes) {
        Some(m) => Err(CertErr::Shared(path.line, m)),
        None => {
            stamp(stamps, step.node, &path.nodes);
            Ok(())
        }
    }
}

/// Checks the paths of a step whose node is an AND node, given the claims of the nodes. All stamps are of lower nodes. Time
/// is linear in the nodes of the paths.
///
/// # Errors
/// The step's first fault: C4, then path by path C3 and C5.
pub(crate) fn check_step(
    graph: &Graph,
    k: u8,
    claims: &[u32],
    stamps: &mut Vec<u32>,
    step: &Step,
) -> Result<(), CertErr>
    requires node { IsAnd graph.now step.now.node }
    requires claims { length claims.now ≡ node_count graph.now }
    requires stamps { length stamps.old.items ≡ node_count graph.now }
    requires fresh { (m : ℕ) → slice_index stamps.old.items m < step.now.node }
    ensures size { OnOk result (length stamps.new.items ≡ node_count graph.now) }
    ensures used { OnOk result ((m : ℕ) → slice_index stamps.new.items m ≤ step.now.node) }
    ensures ok { OnOk result (IsJustified graph.now k (λ m. slice_index claims.now m) step.now) }
    ensures fault { IfErr result (StepFault graph.now k (λ m. slice_index claims.now m) step.now ⊥) }
{
    if step.paths.len() != paths_needed(k, step.claim) {
        return Err(CertErr::PathCount(step.line));
    }
    for path in &step.paths {
        check_path(graph, claims, stamps, step, path)?;
    }
    Ok(())
}
