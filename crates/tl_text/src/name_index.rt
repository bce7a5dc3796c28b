//! Names, numbered in the order of their first occurrences.
ghost use Rattle.std.specs.Prelude.{◌≡◌, [], ◌∷◌, ◌++◌, not, length, None, IfOk, OnOk, OnErr};
ghost use Rattle.tl_text.specs.NameIndex.{place_of};
ghost use Rattle.tl_text.specs.NameSets.{has_name, with_name, with_names as with_all_names};
ghost use Rattle.std.specs.List.{fold};
ghost use Rattle.text_key.specs.Digest.{behind_key, with_bytes, key_of_digest};
ghost use Rattle.tl_text.specs.Once.{AreOnce};

use crate::sought::Sought;
use indexmap::IndexSet;
use std::alloc::{AllocError, Global};
use std::marker::Model;
use text_key::{Digest, TextKey};
use tl_fault::Name;

/// Names in the order in which they were added. Each is found by its hash, under a key. Contracts see the list of the names. It
/// has no repeats, which is an invariant of the type.
///
/// The key is to be computed from a text that has all the names that are added. Then whoever writes the text can't choose names
/// that collide. Names that are only looked up may come from another text.
#[derive(Drop)]
pub struct NameIndex {
    names: IndexSet<Name, TextKey>,
}

impl Model for NameIndex {
    ghost use Rattle.std.specs.Prelude.{ℕ, List};

    ghost Value = { List (List ℕ) };

    ghost view = { λ n. n.names.keys };

    ghost use Rattle.tl_text.specs.Once.{AreOnce};

    ghost invariant = { λ n. AreOnce (n.names.keys) };
}

// The key of names, in their order, after what a key was computed from.
fn key_behind(key: TextKey, names: &[Name]) -> TextKey
    ensures { result ≡ key_of_digest (fold with_bytes (behind_key key) names.now) }
{
    let mut digest = Digest::behind(key);
    for name in names {
        digest.add(name.bytes());
    }
    digest.key()
}

impl NameIndex {
    /// An empty index, with a key. It needs no memory.
    pub fn new(alloc: Global, key: TextKey) -> NameIndex
        ensures { result ≡ [] }
    {
        NameIndex {
            names: IndexSet::with_hasher(alloc, key),
        }
    }

    /// The names of a list, without repeats. The key is that of the names. The time is linear in their bytes, on average over
    /// the hashes.
    pub fn of(alloc: Global, names: &[Name]) -> Result<NameIndex, AllocError>
        ensures { IfOk result (λ index. index ≡ with_all_names [] names.now) }
    {
        NameIndex::of_with(alloc, TextKey::of(b""), names)
    }

    /// The same, with the key of the names after what this key was computed from.
    pub fn of_with(alloc: Global, key: TextKey, names: &[Name]) -> Result<NameIndex, AllocError>
        ensures { IfOk result (λ index. index ≡ with_all_names [] names.now) }
    {
        NameIndex::under(alloc, key_behind(key, names), names)
    }

    /// The names of a list, without repeats, under this key.
    pub fn under(alloc: Global, key: TextKey, names: &[Name]) -> Result<NameIndex, AllocError>
        ensures { IfOk result (λ index. index ≡ with_all_names [] names.now) }
    {
        NameIndex::new(alloc, key).with_names(alloc, names)
    }

    /// An empty index with the key of this one. It needs no memory.
    pub fn fresh(&self, alloc: Global) -> NameIndex
        ensures { result ≡ [] }
    {
        NameIndex::new(alloc, self.key())
    }

    /// The key.
    pub fn key(&self) -> TextKey {
        *self.names.hasher()
    }

    /// The number of names, in constant time. No name is repeated.
    pub fn len(&self) -> usize
        ensures value { result ≡ length self.now }
        ensures once { AreOnce self.now }
    {
        self.names.len()
    }

    /// The place of a name, counted from 0. `None` exactly when the name isn't in the index. The time is linear in the name's
    /// bytes, on average over the hashes.
    pub fn place(&self, name: &[u8]) -> Option<usize>
        ensures { result ≡ place_of self.now name.now }
    {
        self.names.get_index_of(Sought { bytes: name })
    }

    /// Whether the name is in the index. The time is linear in its bytes, on average over the hashes.
    pub fn has(&self, name: &[u8]) -> bool
        ensures { result ≡ has_name self.now name.now }
    {
        self.place(name).is_some()
    }

    /// Appends a name that isn't in the index, and copies its bytes. `Err` only if memory runs out; then nothing is added. The
    /// time is linear in the name's bytes, on average over the calls and hashes.
    #[tactic(auto, using(crate::proofs::NameLemmas::with_new))]
    pub fn add(&mut self, alloc: Global, name: &[u8]) -> Result<(), AllocError>
        requires { place_of self.old name.now ≡ None }
        ensures ok { OnOk result (self.new ≡ self.old ++ name.now ∷ []) }
        ensures err { OnErr result (self.new ≡ self.old) }
    {
        self.add_once(alloc, name)?;
        Ok(())
    }

    /// Appends a name unless it is in the index, and returns whether it is new. `Err` only if memory runs out; then nothing is
    /// added. It copies the bytes and computes one hash.
    pub fn add_new(&mut self, alloc: Global, name: &[u8]) -> Result<bool, AllocError>
        ensures added { IfOk result (λ added. added ≡ not (has_name self.old name.now)) }
        ensures ok { OnOk result (self.new ≡ with_name self.old name.now) }
        ensures err { OnErr result (self.new ≡ self.old) }
    {
        let copy = Name::make(alloc, name)?;
        let (_, added) = self.names.insert_full(copy)?;
        Ok(added)
    }

    /// Appends a name unless it is in the index. `Err` only if memory runs out; then nothing is added. It copies the bytes and
    /// computes one hash.
    pub fn add_once(&mut self, alloc: Global, name: &[u8]) -> Result<(), AllocError>
        ensures ok { OnOk result (self.new ≡ with_name self.old name.now) }
        ensures err { OnErr result (self.new ≡ self.old) }
    {
        self.add_new(alloc, name)?;
        Ok(())
    }

    /// These names and then those of a list that aren't among the ones before.
    pub fn with_names(self, alloc: Global, names: &[Name]) -> Result<NameIndex, AllocError>
        ensures { IfOk result (λ all. all ≡ with_all_names self names.now) }
    {
        let mut all = self;
        for name in names {
            all.add_once(alloc, name.bytes())?;
        }
        Ok(all)
    }

    /// A copy of the names, with the same key. `Err` only if memory runs out. The time is linear in their bytes, on average over the hashes.
    #[tactic(auto, using(crate::proofs::NameSetLemmas::new_names))]
    pub fn copy(&self, alloc: Global) -> Result<NameIndex, AllocError>
        ensures { IfOk result (λ copy. copy ≡ self.now) }
    {
        self.fresh(alloc).with_names(alloc, self.names.as_slice())
    }
}
