//! Nodes on two paths of a step.
//!
//! A node that was met on a path is stamped with the step's node. The nodes of the steps ascend, so stamps of earlier steps
//! differ and needn't be removed.
ghost use Rattle.std.specs.Prelude.{◌≡◌, ℕ, ◌<◌, true, false, length};
ghost use Rattle.list_laws.specs.Members.{In};
ghost use Rattle.cert_check.specs.Stamps.{Clashes, IsFirstClash, AreStamped};

// Whether a node has the stamp, isn't `n` itself, and has a claim below `claim - 1`.
fn clashes(stamps: &[u32], claims: &[u32], n: u32, claim: u32, m: u32) -> bool
    requires stamps { m < length stamps.now }
    requires claims { m < length claims.now }
    ensures yes { result ≡ true → Clashes stamps.now claims.now n claim m }
    ensures no { result ≡ false → Clashes stamps.now claims.now n claim m → ⊥ }
{
    stamps[m as usize] == n && m != n && claims[m as usize] < claim.saturating_sub(1)
}

/// The first of these nodes that has the stamp `n`, isn't `n` itself, and has a claim below `claim - 1`.
pub(crate) fn first_clash(
    stamps: &[u32],
    claims: &[u32],
    n: u32,
    claim: u32,
    nodes: &[u32],
) -> Option<u32>
    requires stamps { (m : ℕ) → In nodes.now m → m < length stamps.now }
    requires claims { (m : ℕ) → In nodes.now m → m < length claims.now }
    ensures { IsFirstClash stamps.now claims.now n claim nodes.now result }
{
    for m in nodes {
        if clashes(stamps, claims, n, claim, *m) {
            return Some(*m);
        }
    }
    None
}

/// Stamps these nodes with `n`.
pub(crate) fn stamp(stamps: &mut Vec<u32>, n: u32, nodes: &[u32])
    requires { (m : ℕ) → In nodes.now m → m < length stamps.old.items }
    ensures { AreStamped stamps.old.items n nodes.now stamps.new.items }
{
    for m in nodes {
        stamps[*m as usize] = n;
    }
}
