//! The check of a certificate against a graph.
ghost use Rattle.std.specs.Prelude.{◌≡◌, ℕ, ◌<◌, ◌≤◌, [], length, true, false, slice_index, slice_set, IfOk, IfErr, OnOk};
ghost use Rattle.aig_core.specs.Aig.{node_count, first_and, IsAnd, AreNormal};
ghost use Rattle.aig_core.specs.Roots.{lits_of, roots_of};
ghost use Rattle.tl_fault.specs.OrMemory.{OrMemory};
ghost use Rattle.cert_check.specs.Faults.{First, StepFault, StepsFault, IsFault, HasOneVerdict, AreInTurn};
ghost use Rattle.cert_check.specs.Valid.{IsLowerBound, AreLowerBounds, claim_of, IsJustified, Needs, SomeNeeds, IsReached, IsValid};
ghost use Rattle.cert_check.specs.Refusals.{refusal_of};
ghost use Rattle.cert_check.specs.declared.cert_err.CertErr.TheVariants.{BadClaim};

use crate::cert_err::CertErr;
use crate::certificate::{Certificate, Step};
use crate::path_check::{is_and, is_regular};
use crate::step_check::check_step;
use aig_core::{Graph, Lit, Roots};
use std::alloc::{AllocError, Global};

// A zero for each node.
fn zeros(alloc: Global, count: u32) -> Result<Vec<u32>, AllocError>
    ensures size { IfOk result (λ numbers. length numbers.items ≡ count) }
    ensures zero { IfOk result (λ numbers. (m : ℕ) → slice_index numbers.items m ≡ 0) }
{
    let numbers = vec![in alloc; 0; count as usize]?;
    Ok(numbers)
}

// Checks a step and adds its claim. `last` is the node of the step before.
fn take_step(
    graph: &Graph,
    k: u8,
    last: u32,
    claims: &mut Vec<u32>,
    stamps: &mut Vec<u32>,
    step: &Step,
) -> Result<(), CertErr>
    requires claims { length claims.old.items ≡ node_count graph.now }
    requires stamps { length stamps.old.items ≡ node_count graph.now }
    requires fresh { (m : ℕ) → slice_index stamps.old.items m ≤ last }
    ensures node { OnOk result (IsAnd graph.now step.now.node) }
    ensures above { OnOk result (last < step.now.node) }
    ensures justified { OnOk result (IsJustified graph.now k (λ m. slice_index claims.old.items m) step.now) }
    ensures claims { OnOk result (claims.new.items ≡ slice_set claims.old.items step.now.node step.now.claim) }
    ensures size { OnOk result (length stamps.new.items ≡ node_count graph.now) }
    ensures used { OnOk result ((m : ℕ) → slice_index stamps.new.items m ≤ step.now.node) }
    ensures fault { IfErr result (λ e. First (IsAnd graph.now step.now.node × (last < step.now.node)) (BadClaim step.now.line)
        (StepFault graph.now k (λ m. slice_index claims.old.items m) step.now ⊥ e) e) }
{
    if !is_and(graph, step.node) || step.node <= last {
        return Err(CertErr::BadClaim(step.line));
    }
    check_step(graph, k, claims, stamps, step)?;
    claims[step.node as usize] = step.claim;
    Ok(())
}

// Checks the steps, and answers the claim of each node.
fn take_steps(alloc: Global, graph: &Graph, k: u8, steps: &[Step]) -> Result<Vec<u32>, CertErr>
    ensures size { IfOk result (λ claims. length claims.items ≡ node_count graph.now) }
    ensures claims { IfOk result (λ claims. (m : ℕ) → slice_index claims.items m ≡ claim_of steps.now m) }
    ensures in_turn { OnOk result (AreInTurn graph.now k [] steps.now) }
    ensures fault { IfErr result (OrMemory refusal_of (StepsFault graph.now k [] steps.now ⊥)) }
    ensures normal { AreNormal (first_and graph.now) graph.now.pairs }
{
    let count = graph.len();
    let mut claims = zeros(alloc, count)?;
    let mut stamps = zeros(alloc, count)?;
    let mut last = 0;
    for step in steps {
        take_step(graph, k, last, &mut claims, &mut stamps, step)?;
        last = step.node;
    }
    Ok(claims)
}

// Whether a root needs the depth: it is at least this deep in every cover.
fn needs(graph: &Graph, claims: &[u32], root: Lit, depth: u32) -> bool
    requires { length claims.now ≡ node_count graph.now }
    ensures yes { result ≡ true → Needs graph.now (λ m. slice_index claims.now m) depth root.0 }
    ensures no { result ≡ false → Needs graph.now (λ m. slice_index claims.now m) depth root.0 → ⊥ }
{
    let n = root.0 / 2;
    if is_and(graph, n) {
        return depth <= claims[n as usize];
    }
    depth == 1 && root.0 % 2 == 1 && is_regular(graph, n)
}

// Whether at least one of these roots needs the depth.
fn one_needs(graph: &Graph, claims: &[u32], roots: &[Lit], depth: u32) -> bool
    requires { length claims.now ≡ node_count graph.now }
    ensures yes { result ≡ true → SomeNeeds graph.now (lits_of roots.now) (λ m. slice_index claims.now m) depth }
    ensures no { result ≡ false → SomeNeeds graph.now (lits_of roots.now) (λ m. slice_index claims.now m) depth → ⊥ }
{
    for root in roots {
        if needs(graph, claims, *root, depth) {
            return true;
        }
    }
    false
}

// Whether the depth is 0, or at least one root needs it.
fn is_reached(graph: &Graph, claims: &[u32], roots: &Roots, depth: u32) -> bool
    requires { length claims.now ≡ node_count graph.now }
    ensures yes { result ≡ true → IsReached graph.now (roots_of roots.now) (λ m. slice_index claims.now m) depth }
    ensures no { result ≡ false → IsReached graph.now (roots_of roots.now) (λ m. slice_index claims.now m) depth → ⊥ }
{
    if depth == 0 {
        return true;
    }
    if one_needs(graph, claims, &roots.outputs, depth) {
        return true;
    }
    one_needs(graph, claims, &roots.next, depth)
}

/// Checks a certificate for a graph and its roots, and for LUTs of at most `k` inputs. Returns `Ok` if and only if it is
/// valid, by `specs/Valid.antt`. Then no cover of the graph by such LUTs, whatever its cuts, has a depth below that of the
/// certificate, and none has a node at a lower depth than the certificate claims for it.
///
/// Nothing is assumed about the certificate. Time and memory are linear in the graph and the certificate.
///
/// # Errors
/// The certificate's first fault, by `specs/Faults.antt`: the steps in their order, for each C2, then C4, then path by path
/// C3 and C5; then C6. `Memory` if memory runs out. A certificate has at most one fault, and none if it is valid.
pub fn check(
    alloc: Global,
    graph: &Graph,
    roots: &Roots,
    k: u8,
    cert: &Certificate,
) -> Result<(), CertErr>
    ensures ok { OnOk result (IsValid graph.now (roots_of roots.now) k cert.now) }
    ensures fault { IfErr result (OrMemory refusal_of (IsFault graph.now (roots_of roots.now) k cert.now)) }
    ensures one_verdict { HasOneVerdict graph.now (roots_of roots.now) k cert.now }

    // What a valid certificate shows.
    ensures least { OnOk result (IsLowerBound graph.now k (roots_of roots.now) cert.now.depth) }
    ensures claims { OnOk result (AreLowerBounds graph.now k (claim_of cert.now.steps)) }
{
    let claims = take_steps(alloc, graph, k, &cert.steps)?;
    if !is_reached(graph, &claims, roots, cert.depth) {
        return Err(CertErr::NotReached);
    }
    Ok(())
}
