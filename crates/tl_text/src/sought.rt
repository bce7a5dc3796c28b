//! The key by which names are looked up.
use indexmap::Equivalent;
use std::hash::{Hash, Hasher};
use tl_fault::Name;

// The bytes of a name that is looked up.
#[derive(Clone, Copy)]
pub struct Sought<'a> {
    pub bytes: &'a [u8],
}

impl PartialEq for Sought<'_> {
    ghost use Rattle.std.specs.Prelude.{bytes_eq};
    ghost use Rattle.std.specs.Cmp.{on_per, partial_equiv_from_equiv};
    ghost use Rattle.std.specs.Cmp.Lexicographic.{nat_list_eq_equiv};

    ghost eq = { λ a b. bytes_eq a.bytes.now b.bytes.now };

    ghost laws = { on_per (λ a. a.bytes.now) (partial_equiv_from_equiv nat_list_eq_equiv) };

    fn eq(&self, other: &Self) -> bool {
        self.bytes == other.bytes
    }
}

impl Eq for Sought<'_> {
    ghost use Rattle.std.specs.Cmp.{on_equiv};
    ghost use Rattle.std.specs.Cmp.Lexicographic.{nat_list_eq_equiv};

    ghost laws = { on_equiv (λ a. a.bytes.now) nat_list_eq_equiv };
}

impl Hash for Sought<'_> {
    ghost use Rattle.std.specs.Prelude.{[], ◌∷◌};
    ghost use Rattle.std.proofs.Common.{ap};
    ghost use Rattle.std.specs.Cmp.Lexicographic.{bytes_decides};

    ghost hash_input = { λ a. a.bytes.now ∷ [] };

    ghost respects_eq = { λ a b same. ap (λ bytes. bytes ∷ []) ((bytes_decides a.bytes.now b.bytes.now).0 same) };

    fn hash<H: Hasher>(&self, state: &mut H) {
        state.write(self.bytes);
    }
}

impl Equivalent<Name> for Sought<'_> {
    ghost use Rattle.std.specs.Prelude.{bytes_eq, [], ◌∷◌};
    ghost use Rattle.std.proofs.Common.{ap};
    ghost use Rattle.std.specs.Cmp.Lexicographic.{bytes_decides, nat_list_eq_equiv};

    ghost equivalent = { λ a name. bytes_eq a.bytes.now name };

    ghost respects_hash = { λ a name same. ap (λ bytes. bytes ∷ []) ((bytes_decides a.bytes.now name).0 same) };

    ghost respects_eq = { λ a x y. nat_list_eq_equiv.congr a.bytes.now x y };

    fn equivalent(&self, key: &Name) -> bool {
        self.bytes == key.bytes()
    }
}
