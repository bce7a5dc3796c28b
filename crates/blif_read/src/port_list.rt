//! The names of a model's ports of one direction.
ghost use Rattle.std.specs.Prelude.{◌≡◌, ◌∷◌, [], ◌++◌, false, None, Some, MatchResult, if◌then◌else◌};
ghost use Rattle.blif_read.specs.declared.blif_err.BlifErr.TheVariants.{DuplicatePort};
ghost use Rattle.blif_read.specs.LineFault.{has, ports_fault};
ghost use Rattle.blif_read.specs.Reading.{ReadsUnless};
ghost use Rattle.blif_read.specs.Refusals.{refusal_of};
ghost use Rattle.tl_fault.specs.OrMemory.{OrMemory};

use crate::blif_err::BlifErr;
use std::alloc::Global;
use std::marker::Model;
use tl_text::{Name, NameIndex, TextKey};

/// Port names in order, without repeats. Each is found by its hash.
#[derive(Drop)]
pub(crate) struct PortList {
    names: Vec<Name>,
    index: NameIndex,
}

impl Model for PortList {
    ghost use Rattle.std.specs.Prelude.{◌≡◌, ℕ, List};

    ghost Value = { List (List ℕ) };

    ghost view = { λ p. p.names.items };

    ghost invariant = { λ p. p.index ≡ p.names.items };
}

// Adds a name that isn't there yet.
fn add(
    alloc: Global,
    number: u32,
    names: &mut Vec<Name>,
    index: &mut NameIndex,
    name: Name,
) -> Result<(), BlifErr>
    requires { index.old ≡ names.old.items }
    ensures { MatchResult result
        (λ _. (has names.old.items name ≡ false) × (names.new.items ≡ names.old.items ++ name ∷ []) × (index.new ≡ names.new.items))
        (OrMemory refusal_of (λ e. (if has names.old.items name then Some (DuplicatePort number name) else None) ≡ Some e)) }
{
    if index.place(name.bytes()).is_some() {
        return Err(BlifErr::DuplicatePort(number, name));
    }
    index.add(alloc, name.bytes())?;
    names.push(name)?;
    Ok(())
}

impl PortList {
    /// No names, with the key of the text.
    pub(crate) fn new(alloc: Global, key: TextKey) -> PortList
        ensures { result ≡ [] }
    {
        PortList {
            names: Vec::new(alloc),
            index: NameIndex::new(alloc, key),
        }
    }

    /// The key of the text.
    pub(crate) fn key(&self) -> TextKey {
        self.index.key()
    }

    /// The names in order.
    pub(crate) fn names(self) -> Vec<Name>
        ensures { result.items ≡ self }
    {
        self.names
    }

    /// The names, followed by those of a line.
    pub(crate) fn with(
        self,
        alloc: Global,
        number: u32,
        names: Vec<Name>,
    ) -> Result<PortList, BlifErr>
        ensures { ReadsUnless (ports_fault number self names.items) (λ list. list ≡ self ++ names.items) result }
    {
        let PortList {
            names: mut done,
            mut index,
        } = self;
        for name in names {
            add(alloc, number, &mut done, &mut index, name)?;
        }
        Ok(PortList { names: done, index })
    }
}
