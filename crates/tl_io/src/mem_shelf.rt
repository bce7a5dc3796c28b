//! A shelf in memory.
ghost use Rattle.std.specs.Prelude.{◌≡◌, ◌-◌, ◌^◌, ◌≤◌, ◌↔◌, [], IfOk, OnOk, OnErr, IfSome, IsErr, IsTrue, false, length, min, take};
ghost use Rattle.std.proofs.Common.{rules};
ghost use Rattle.std.specs.FinMap.{get};
ghost use Rattle.std.specs.Option.{option_map};
ghost use Rattle.tl_io.specs.Causes.{HasCause};
ghost use Rattle.tl_io.specs.Content.{Puts};
ghost use Rattle.tl_io.specs.Shelf.{Begins, BeginsWrite, Pulls, apart, written};

use crate::fault_plan::FaultPlan;
use crate::mem_files::MemFiles;
use crate::shelf_counts::ShelfCounts;
use crate::told_name::NAME_ROOM;
use crate::{Failed, Shelf};
use std::alloc::{AllocError, Global};
use std::marker::Model;

/// A shelf in memory that fails at chosen calls.
///
/// `begin_read` and `begin_write` search the files from the front, in time linear in their number.
#[derive(Drop)]
pub struct MemShelf {
    files: MemFiles,
    piece: usize,
    plan: FaultPlan,
    counts: ShelfCounts,
}

impl Model for MemShelf {
    ghost use Rattle.std.specs.Prelude.{◌≤◌};
    ghost use Rattle.std.specs.Coded.{codes};
    ghost use Rattle.tl_io.specs.Store.{store_code};
    ghost use Rattle.tl_io.specs.ShelfValue.{ShelfValue};

    ghost Value = { ShelfValue };

    ghost coded = { Prim.hlevel (codes, store_code) };

    ghost view = { λ shelf. record { store = shelf.files; piece = shelf.piece; plan = shelf.plan; counts = shelf.counts } };

    ghost invariant = { λ shelf. 1 ≤ shelf.piece };
}

impl MemShelf {
    ghost use Rattle.tl_io.specs.ShelfCounts.{no_counts};
    ghost use Rattle.tl_io.specs.Store.{no_files, added};

    /// Creates a shelf without files. A `pull` gives at most `piece` bytes. The calls of the trait are numbered from 0. A
    /// call fails if its number is in `fails`, unless it is a `push` of an empty piece.
    ///
    /// # Errors
    /// `AllocError` if there is no memory for the numbers.
    pub fn make(alloc: Global, piece: usize, fails: &[u64]) -> Result<MemShelf, AllocError>
        requires { 1 ≤ piece }
        ensures { IfOk result (λ shelf. shelf ≡ record {
          store = no_files;
          piece = piece;
          plan = record { fails = fails.now; calls = 0 };
          counts = no_counts;
        }) }
    {
        let plan = FaultPlan::make(alloc, fails)?;
        Ok(MemShelf {
            files: MemFiles::new(alloc),
            piece,
            plan,
            counts: ShelfCounts::new(),
        })
    }

    /// Adds a file, or replaces the one of this name, and reserves `room` bytes for writing it. Any reading or writing
    /// ends.
    ///
    /// # Errors
    /// `AllocError` if there is no memory for the file. The shelf is unchanged.
    pub fn add(&mut self, name: &str, bytes: &[u8], room: usize) -> Result<(), AllocError>
        ensures ok { OnOk result (self.new ≡ record self.old { store = added self.old.store name.now bytes.now room }) }
        ensures err { OnErr result (self.new ≡ self.old) }
    {
        self.files.add(name, bytes, room)
    }

    /// Returns the bytes of the file of this name, or `None` if and only if no file of this name was added.
    pub fn file(&self, name: &str) -> Option<&[u8]>
        ensures { option_map (λ bytes. bytes.now) result ≡ get self.now.store.files name.now }
    {
        self.files.bytes(name)
    }
}

impl Shelf for MemShelf {
    ghost use Rattle.tl_io.specs.FaultPlan.{fails_next};
    ghost use Rattle.tl_io.specs.ShelfValue.{shelf_in_memory, fails_begin, fails_push, after_begin_read, after_pull, after_failed_pull, after_begin_write, after_push};

    ghost seen = { λ shelf. shelf_in_memory shelf };

    fn begin_read(&mut self, name: &str) -> Result<(), Failed>
        ensures cause { HasCause (shelf_in_memory self.old).read_faults (shelf_in_memory self.new).read_faults result }
        ensures begins { Begins (shelf_in_memory self.old) name.now (shelf_in_memory self.new) result }
        ensures ends_writing { (shelf_in_memory self.new).is_writing ≡ false }
        ensures name { (shelf_in_memory self.new).name ≡ take NAME_ROOM name.now }
        ensures given { (shelf_in_memory self.new).given ≡ 0 }
        ensures before { (shelf_in_memory self.new).before ≡ (shelf_in_memory self.old).read_faults }
        ensures files { (shelf_in_memory self.new).files ≡ (shelf_in_memory self.old).files }
        ensures write_faults { (shelf_in_memory self.new).write_faults ≡ (shelf_in_memory self.old).write_faults }
        ensures exact { IsErr result ↔ IsTrue (fails_begin self.old name.now) }
        ensures after { self.new ≡ after_begin_read self.old name.now }
    {
        self.counts.begin_read(name);
        if self.plan.next_call_fails() {
            self.files.close();
        } else if self.files.open(name) {
            return Ok(());
        }
        self.counts.count_read_fault();
        Err(Failed)
    }

    fn pull(&mut self, buf: &mut [u8]) -> Result<usize, Failed>
        requires { IsTrue (shelf_in_memory self.old).is_reading }
        ensures cause { HasCause (shelf_in_memory self.old).read_faults (shelf_in_memory self.new).read_faults result }
        ensures pulls { Pulls (shelf_in_memory self.old) (shelf_in_memory self.new) buf.new result }
        ensures kept { OnErr result (buf.new ≡ buf.old) }
        ensures reading { IsTrue (shelf_in_memory self.new).is_reading }
        ensures is_writing { (shelf_in_memory self.new).is_writing ≡ (shelf_in_memory self.old).is_writing }
        ensures writing { (shelf_in_memory self.new).writing ≡ (shelf_in_memory self.old).writing }
        ensures name { (shelf_in_memory self.new).name ≡ (shelf_in_memory self.old).name }
        ensures before { (shelf_in_memory self.new).before ≡ (shelf_in_memory self.old).before }
        ensures files { (shelf_in_memory self.new).files ≡ (shelf_in_memory self.old).files }
        ensures write_faults { (shelf_in_memory self.new).write_faults ≡ (shelf_in_memory self.old).write_faults }
        ensures exact { IsErr result ↔ IsTrue (fails_next self.old.plan) }
        ensures count { IfOk result (λ count. IfSome self.old.store.left (λ bytes. count ≡ min (min (length bytes) self.old.piece) (length buf.new))) }
        ensures after { IfOk result (λ count. self.new ≡ after_pull self.old count) }
        ensures after_fault { OnErr result (self.new ≡ after_failed_pull self.old) }
    {
        if self.plan.next_call_fails() {
            self.counts.count_read_fault();
            return Err(Failed);
        }
        let count = self.files.give(self.piece, buf);
        self.counts.give(count);
        Ok(count)
    }

    fn begin_write(&mut self, name: &str) -> Result<(), Failed>
        ensures cause { HasCause (shelf_in_memory self.old).write_faults (shelf_in_memory self.new).write_faults result }
        ensures begins { BeginsWrite (shelf_in_memory self.old) name.now (shelf_in_memory self.new) result }
        ensures ends_reading { (shelf_in_memory self.new).is_reading ≡ false }
        ensures name { (shelf_in_memory self.new).name ≡ (shelf_in_memory self.old).name }
        ensures given { (shelf_in_memory self.new).given ≡ (shelf_in_memory self.old).given }
        ensures before { (shelf_in_memory self.new).before ≡ (shelf_in_memory self.old).before }
        ensures read_faults { (shelf_in_memory self.new).read_faults ≡ (shelf_in_memory self.old).read_faults }
        ensures exact { IsErr result ↔ IsTrue (fails_begin self.old name.now) }
        ensures after { self.new ≡ after_begin_write self.old name.now }
    {
        if self.plan.next_call_fails() {
            self.files.close();
        } else if self.files.create(name) {
            return Ok(());
        }
        self.counts.count_write_fault();
        Err(Failed)
    }

    fn push(&mut self, piece: &[u8]) -> Result<(), Failed>
        requires { IsTrue (shelf_in_memory self.old).is_writing }
        ensures cause { HasCause (shelf_in_memory self.old).write_faults (shelf_in_memory self.new).write_faults result }
        ensures grown { Puts (written (shelf_in_memory self.old)) (written (shelf_in_memory self.new)) piece.now result }
        ensures writing { IsTrue (shelf_in_memory self.new).is_writing }
        ensures apart { apart (shelf_in_memory self.new) ≡ apart (shelf_in_memory self.old) }
        ensures exact { IsErr result ↔ IsTrue (fails_push self.old piece.now) }
        ensures after { self.new ≡ after_push self.old piece.now }
    {
        let listed = self.plan.next_call_fails();
        if piece.len() > self.files.room_left() {
            self.counts.count_write_fault();
            return Err(Failed);
        }
        if listed && !piece.is_empty() {
            self.files.append(&piece[..piece.len() / 2]);
            self.counts.count_write_fault();
            return Err(Failed);
        }
        self.files.append(piece);
        Ok(())
    }

    ghost read_faults_end = { λ shelf. Prim.search rules };

    ghost write_faults_end = { λ shelf. Prim.search rules };
}
