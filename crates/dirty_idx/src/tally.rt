//! A ghost number of reads. It takes no bytes at run time.
ghost use Rattle.std.specs.Prelude.{◌≡◌, ℕ, ◌+◌};
ghost use base.Fml.{ftrue};

use std::marker::{Model, PhantomData};

/// The number of reads so far. It takes no bytes at run time, and only `add` changes it.
#[derive(Drop)]
pub struct Tally {
    marker: PhantomData<()>,
    pub ghost total: { ℕ },
}

impl Model for Tally {
    ghost also_owns = { λ t. ftrue };
}

impl Tally {
    /// A number of 0.
    pub fn start() -> Tally
        ensures { result.total ≡ 0 }
    {
        Tally {
            marker: PhantomData,
        }
    }

    /// Adds one read.
    pub fn add(&mut self)
        ensures { self.new.total ≡ self.old.total + 1 }
    {}
}
