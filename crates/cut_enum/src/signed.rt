//! Cuts with their signatures in a vector of their own.
//!
//! If a cut's signature has a bit that another's lacks, the other cut doesn't contain it. If two signatures together have
//! more than k bits, the union of the cuts has more than k leaves. So a scan over many cuts reads their signatures, one
//! after another, and the leaves of few.
//!
//! In a long list, each eight signatures in a row are a group, and the bits that all eight have are kept beside the list. If
//! the tested cut's signature lacks one of these, that cut contains none of the eight: one test skips them. Cuts in order
//! have leaves in common with the next ones, so in a list of some hundreds most groups are skipped so. Of the others, the
//! eight signatures are tested together, in code without branches: if each has a bit that the tested cut's signature lacks,
//! that cut contains none of the eight either. The signatures after the last group, and all signatures of a short list, are
//! tested one by one.
ghost use Rattle.std.specs.Prelude.{◌≡◌, ◌+◌, ◌-◌, ◌^◌, ◌++◌, ◌≤◌, [], false, length, take, map, OnOk, IfOk};
ghost use Rattle.std.specs.List.{list_any};
ghost use Rattle.cut_enum.specs.Keeps.{AllHave, AreShared, NoneClear};
ghost use Rattle.cut_enum.specs.Merging.{leading};
ghost use Rattle.cut_sets.specs.Unions.{subset};
ghost use Rattle.cut_sets.specs.Signature.{signature_of};

use crate::level::Level;
use crate::limits::{FEWEST_GROUPED, GROUP};
use cut_sets::{FlatCut, is_part};
use std::alloc::{AllocError, Global};
use std::marker::Model;

// Cuts, their signatures, and the bits that all signatures of a group have.
#[derive(Drop)]
pub struct Signed {
    cuts: Vec<FlatCut>,
    signatures: Vec<u64>,
    shared: Vec<u64>,
}

impl Model for Signed {
    ghost use Rattle.std.specs.Prelude.{ℕ, List};
    ghost use Rattle.cut_enum.specs.Keeps.{AreSigned};

    ghost Value = { List (List ℕ) };

    ghost view = { λ s. s.cuts.items };

    ghost invariant = { λ s. AreSigned s.cuts.items s.signatures.items s.shared.items };
}

// Some of them, one after another.
#[derive(Drop)]
pub struct SignedPart<'a> {
    pub cuts: &'a [FlatCut],
    pub signatures: &'a [u64],
    shared: &'a [u64],
}

impl<'a> Model for SignedPart<'a> {
    ghost use Rattle.std.specs.Prelude.{ℕ, List};
    ghost use Rattle.cut_enum.specs.Keeps.{AreSigned};

    ghost Value = { List (List ℕ) };

    ghost view = { λ p. p.cuts.now };

    ghost invariant = { λ p. AreSigned p.cuts.now p.signatures.now p.shared.now };
}

// Adds the signatures of some cuts.
fn sign(signatures: &mut Vec<u64>, cuts: &[FlatCut]) -> Result<(), AllocError>
    ensures { OnOk result (signatures.new.items ≡ signatures.old.items ++ map signature_of cuts.now) }
{
    signatures.reserve(cuts.len())?;
    for cut in cuts {
        signatures.push(cut.signature())?;
    }
    Ok(())
}

// The bits that all of some words have.
fn shared_bits(words: &[u64]) -> u64
    ensures { AllHave result words.now }
{
    let mut bits = u64::MAX;
    for word in words {
        bits &= *word;
    }
    bits
}

// Adds the shared bits of the groups that have none yet, if the signatures are many.
fn share(shared: &mut Vec<u64>, signatures: &[u64]) -> Result<(), AllocError>
    requires { AreShared signatures.now shared.old.items }
    ensures { OnOk result (AreShared signatures.now shared.new.items) }
{
    if signatures.len() < FEWEST_GROUPED {
        return Ok(());
    }
    for n in shared.len()..signatures.len() / GROUP {
        let start = n * GROUP;
        shared.push(shared_bits(&signatures[start..start + GROUP]))?;
    }
    Ok(())
}

// How many cuts at the head have fewer than size leaves.
fn count_leading(cuts: &[FlatCut], size: usize) -> usize
    ensures within { result ≤ length cuts.now }
    ensures leading { take result cuts.now ≡ leading size cuts.now }
{
    for (i, cut) in cuts.iter().enumerate() {
        if cut.len() >= size {
            return i;
        }
    }
    cuts.len()
}

impl Signed {
    // No cut.
    pub fn new(alloc: Global) -> Signed
        ensures { result ≡ [] }
    {
        Signed {
            cuts: Vec::new(alloc),
            signatures: Vec::new(alloc),
            shared: Vec::new(alloc),
        }
    }

    // These cuts, signed.
    pub fn of(alloc: Global, cuts: Vec<FlatCut>) -> Result<Signed, AllocError>
        ensures { IfOk result (λ s. s ≡ cuts.items) }
    {
        let mut signatures = Vec::new(alloc);
        sign(&mut signatures, &cuts)?;
        let mut shared = Vec::new(alloc);
        share(&mut shared, &signatures)?;
        Ok(Signed {
            cuts,
            signatures,
            shared,
        })
    }

    // With the cuts of a level after the others, in order.
    pub fn extended(self, level: &Level) -> Result<Signed, AllocError>
        ensures { IfOk result (λ s. s ≡ self ++ level.now) }
    {
        let Signed {
            mut cuts,
            mut signatures,
            mut shared,
        } = self;
        let before = cuts.len();
        level.append_to(&mut cuts)?;
        sign(&mut signatures, &cuts[before..])?;
        share(&mut shared, &signatures)?;
        Ok(Signed {
            cuts,
            signatures,
            shared,
        })
    }

    // The cuts alone.
    pub fn into_cuts(self) -> Vec<FlatCut>
        ensures { result.items ≡ self }
    {
        self.cuts
    }

    // All cuts.
    pub fn cuts(&self) -> &[FlatCut]
        ensures { result.now ≡ self.now }
    {
        &self.cuts
    }

    // All of them.
    pub fn all(&self) -> SignedPart<'_>
        ensures { result ≡ self.now }
    {
        SignedPart {
            cuts: &self.cuts,
            signatures: &self.signatures,
            shared: &self.shared,
        }
    }

    // Those at the head that have fewer than size leaves.
    pub fn leading(&self, size: usize) -> SignedPart<'_>
        ensures { result ≡ leading size self.now }
    {
        let count = count_leading(&self.cuts, size);
        SignedPart {
            cuts: &self.cuts[..count],
            signatures: &self.signatures[..count],
            shared: &self.shared[..self.shared.len().min(count / GROUP)],
        }
    }
}

// Is a cut with this signature within another one? The bits outside are those that the other's signature lacks.
fn is_signed_part(signature: u64, cut: &FlatCut, outside: u64, whole: &FlatCut) -> bool
    requires signature { signature ≡ signature_of cut.now }
    requires outside { outside + signature_of whole.now ≡ 2 ^ 64 - 1 }
    ensures { result ≡ subset cut.now whole.now }
{
    if outside & signature != 0 {
        return false;
    }
    is_part(cut, whole)
}

// Is one of these, which have these signatures, within the cut?
fn has_listed_part(cuts: &[FlatCut], signatures: &[u64], outside: u64, cut: &FlatCut) -> bool
    requires signed { signatures.now ≡ map signature_of cuts.now }
    requires outside { outside + signature_of cut.now ≡ 2 ^ 64 - 1 }
    ensures { result ≡ list_any (λ d. subset d cut.now) cuts.now }
{
    for (i, signature) in signatures.iter().enumerate() {
        if is_signed_part(*signature, &cuts[i], outside, cut) {
            return true;
        }
    }
    false
}

// Has one of a group of words none of these bits?
fn is_one_clear(words: &[u64], bits: u64) -> bool
    requires { length words.now ≡ GROUP }
    ensures none { result ≡ false → NoneClear bits words.now }
    ensures one { NoneClear bits words.now → result ≡ false }
{
    let mut clear = false;
    for word in words {
        if bits & *word == 0 {
            clear = true;
        }
    }
    clear
}

// Is one of a group within the cut? All signatures of the group have the shared bits.
fn has_grouped_part(
    cuts: &[FlatCut],
    signatures: &[u64],
    shared: u64,
    outside: u64,
    cut: &FlatCut,
) -> bool
    requires group { length signatures.now ≡ GROUP }
    requires signed { signatures.now ≡ map signature_of cuts.now }
    requires shared { AllHave shared signatures.now }
    requires outside { outside + signature_of cut.now ≡ 2 ^ 64 - 1 }
    ensures { result ≡ list_any (λ d. subset d cut.now) cuts.now }
{
    if outside & shared != 0 {
        return false;
    }
    if !is_one_clear(signatures, outside) {
        return false;
    }
    has_listed_part(cuts, signatures, outside, cut)
}

// Is one of these within the cut? A group is skipped where it can be.
fn has_part_in_groups(parts: &SignedPart<'_>, outside: u64, cut: &FlatCut) -> bool
    requires { outside + signature_of cut.now ≡ 2 ^ 64 - 1 }
    ensures { result ≡ list_any (λ d. subset d cut.now) parts.now }
{
    let cuts = parts.cuts;
    let signatures = parts.signatures;
    for (n, shared) in parts.shared.iter().enumerate() {
        let start = n * GROUP;
        let end = start + GROUP;
        if has_grouped_part(
            &cuts[start..end],
            &signatures[start..end],
            *shared,
            outside,
            cut,
        ) {
            return true;
        }
    }
    let rest = parts.shared.len() * GROUP;
    has_listed_part(&cuts[rest..], &signatures[rest..], outside, cut)
}

// Is one of these within the cut?
pub fn has_part(parts: &SignedPart<'_>, cut: &FlatCut) -> bool
    ensures { result ≡ list_any (λ d. subset d cut.now) parts.now }
{
    let outside = !cut.signature();
    if parts.shared.is_empty() {
        return has_listed_part(parts.cuts, parts.signatures, outside, cut);
    }
    has_part_in_groups(parts, outside, cut)
}
