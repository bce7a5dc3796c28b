//! A list of numbers that can be set to zero in one step.
ghost use Rattle.std.specs.Prelude.{◌≡◌, ◌<◌, ◌≤◌, length, slice_index, slice_set, IfOk, ℕ};
ghost use Rattle.flow_label.specs.Stamps.{zeros};

use std::alloc::{AllocError, Global};
use std::marker::Model;

/// A number for each node. A value is valid if its stamp is the current one, and otherwise it is 0.
#[derive(Drop)]
pub struct Stamped {
    stamps: Vec<u32>,
    values: Vec<u32>,
    present: u32,
}

impl Model for Stamped {
    ghost use Rattle.std.specs.Prelude.{ℕ, List};
    ghost use Rattle.flow_label.specs.Stamps.{values_at, AreStamps};

    ghost Value = { List ℕ };

    ghost view = { λ s. values_at s.present s.stamps.items s.values.items };

    ghost invariant = { λ s. AreStamps s.present s.stamps.items s.values.items };
}

impl Stamped {
    ghost use Rattle.std.specs.Prelude.{◌≡◌, ◌<◌, length, slice_index, slice_set, IfOk};
    ghost use Rattle.flow_label.specs.Stamps.{zeros, values_at};

    /// `count` zeros.
    ///
    /// # Errors
    /// Only if memory runs out.
    pub fn new(alloc: Global, count: u32) -> Result<Stamped, AllocError>
        ensures { IfOk result (λ numbers. numbers ≡ zeros count) }
    {
        let stamps = vec![in alloc; 0; count as usize]?;
        let values = vec![in alloc; 0; count as usize]?;
        Ok(Stamped::of(stamps, values))
    }

    // Numbers without a valid stamp, so all of them are 0.
    fn of(stamps: Vec<u32>, values: Vec<u32>) -> Stamped
        requires size { length stamps.items ≡ length values.items }
        requires stamps { stamps.items ≡ zeros (length stamps.items) }
        ensures { result ≡ zeros (length values.items) }
    {
        Stamped {
            stamps,
            values,
            present: 1,
        }
    }

    /// The number at a place, 0 past the last one.
    pub fn get(&self, i: u32) -> u32
        ensures { result ≡ slice_index self.now i }
    {
        if (i as usize) < self.stamps.len() && self.stamps[i as usize] == self.present {
            return self.values[i as usize];
        }
        0
    }

    /// Sets the number at a place.
    pub fn set(&mut self, i: u32, value: u32)
        requires { i < length self.old }
        ensures { self.new ≡ slice_set self.old i value }
    {
        self.stamps[i as usize] = self.present;
        self.values[i as usize] = value;
    }

    /// Sets all numbers to 0 by moving to the next stamp. After the last possible stamp, all stamps are wiped.
    pub fn clear(&mut self)
        ensures { self.new ≡ zeros (length self.old) }
    {
        if self.present == u32::MAX {
            self.stamps.fill(0);
            self.present = 1;
        } else {
            self.present += 1;
        }
    }
}
