//! What a shelf records of its calls: the last file that it read, and its counts of faults.
ghost use Rattle.std.specs.Prelude.{◌≡◌, ◌+◌, take};
ghost use Rattle.tl_io.specs.Counts.{count_of};

use crate::told_name::{NAME_ROOM, ToldName};
use std::marker::Model;

/// The record of a shelf's last read, and its counts of faults.
#[derive(Drop)]
pub struct ShelfCounts {
    name: ToldName,
    given: u64,
    before: u64,
    read_faults: u64,
    write_faults: u64,
}

impl Model for ShelfCounts {
    ghost use Rattle.tl_io.specs.ShelfCounts.{Counted};

    ghost Value = { Counted };

    ghost view = { λ counts. record {
      name = counts.name;
      given = counts.given;
      before = counts.before;
      read_faults = counts.read_faults;
      write_faults = counts.write_faults;
    } };
}

impl ShelfCounts {
    ghost use Rattle.tl_io.specs.ShelfCounts.{no_counts, with_write_fault};

    pub fn new() -> ShelfCounts
        ensures { result ≡ no_counts }
    {
        ShelfCounts {
            name: ToldName::new(),
            given: 0,
            before: 0,
            read_faults: 0,
            write_faults: 0,
        }
    }

    /// Records that a read of this file begins.
    pub fn begin_read(&mut self, name: &str)
        ensures { self.new ≡ record self.old { name = take NAME_ROOM name.now; given = 0; before = self.old.read_faults } }
    {
        self.name.set(name.as_bytes());
        self.given = 0;
        self.before = self.read_faults;
    }

    /// Records that this many bytes were given.
    pub fn give(&mut self, count: usize)
        ensures { self.new ≡ record self.old { given = count_of (self.old.given + count) } }
    {
        self.given = self.given.saturating_add(count as u64);
    }

    /// Records a failed read.
    pub fn count_read_fault(&mut self)
        ensures { self.new ≡ record self.old { read_faults = count_of (self.old.read_faults + 1) } }
    {
        self.read_faults = self.read_faults.saturating_add(1);
    }

    /// Records a failed write.
    pub fn count_write_fault(&mut self)
        ensures { self.new ≡ with_write_fault self.old }
    {
        self.write_faults = self.write_faults.saturating_add(1);
    }
}
