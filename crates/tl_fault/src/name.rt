//! The bytes of one token.
ghost use Rattle.std.specs.Prelude.{◌≡◌, IfOk};

use crate::kept::{Kept, keep};
use std::alloc::{AllocError, Global};
use std::hash::{Hash, Hasher};
use std::marker::Model;

/// The bytes of one token. Contracts see a list of numbers below 256. Up to 22 bytes need no allocation.
#[derive(Debug, Drop)]
pub struct Name {
    kept: Kept,
}

impl Model for Name {
    ghost use Rattle.std.specs.Prelude.{ℕ, List};

    ghost Value = { List ℕ };

    ghost use Rattle.tl_fault.specs.KeptBytes.{IsKept, kept_bytes};

    ghost view = { λ n. kept_bytes n.kept };

    ghost invariant = { λ n. IsKept n.kept };
}

impl Name {
    /// A name with a copy of these bytes. `Err` only if memory runs out. The time is linear in their number.
    pub fn make(alloc: Global, bytes: &[u8]) -> Result<Name, AllocError>
        ensures { IfOk result (λ name. name ≡ bytes.now) }
    {
        Ok(Name {
            kept: keep(alloc, bytes)?,
        })
    }

    /// The bytes of the name, in constant time.
    pub fn bytes(&self) -> &[u8]
        ensures { result.now ≡ self.now }
    {
        self.kept.bytes()
    }
}

impl PartialEq for Name {
    ghost use Rattle.std.specs.Prelude.{bytes_eq};
    ghost use Rattle.std.specs.Cmp.{partial_equiv_from_equiv};
    ghost use Rattle.std.specs.Cmp.Lexicographic.{nat_list_eq_equiv};

    ghost eq = { bytes_eq };

    ghost laws = { partial_equiv_from_equiv nat_list_eq_equiv };

    fn eq(&self, other: &Name) -> bool {
        self.bytes() == other.bytes()
    }
}

impl Eq for Name {
    ghost use Rattle.std.specs.Cmp.Lexicographic.{nat_list_eq_equiv};

    ghost laws = { nat_list_eq_equiv };
}

/// A name writes all its bytes to the hasher at once.
impl Hash for Name {
    ghost use Rattle.std.specs.Prelude.{[], ◌∷◌};
    ghost use Rattle.std.proofs.Common.{ap};
    ghost use Rattle.std.specs.Cmp.Lexicographic.{bytes_decides};

    ghost hash_input = { λ n. n ∷ [] };

    ghost respects_eq = { λ n m same. ap (λ bytes. bytes ∷ []) ((bytes_decides n m).0 same) };

    fn hash<H: Hasher>(&self, state: &mut H) {
        state.write(self.bytes());
    }
}
