//! A shelf over the files of the operating system.
ghost use Rattle.std.specs.Prelude.{◌≡◌, ◌-◌, ◌^◌, ◌≤◌, IsTrue, false, is_some, length, take, IfOk, OnOk, OnErr};
ghost use Rattle.std.proofs.Common.{rules};
ghost use Rattle.tl_io.specs.Causes.{HasCause};
ghost use Rattle.tl_io.specs.Content.{Puts};
ghost use Rattle.tl_io.specs.DiskValue.{DiskValue, shelf_on_disk, all_synced};
ghost use Rattle.tl_io.specs.Shelf.{Begins, BeginsWrite, Pulls, apart, written};
ghost use Rattle.tl_io.specs.ShelfCounts.{no_counts, with_write_fault};
ghost use Rattle.tl_io.specs.Written.{BeginsAfterSync, no_syncs};

use crate::file_id::{FileId, emptied, opened};
use crate::file_ids::FileIds;
use crate::inner_write::write_whole;
use crate::shelf_counts::ShelfCounts;
use crate::sync_counts::{BegunFile, SyncCounts};
use crate::told_name::NAME_ROOM;
use crate::{Failed, Shelf};
use std::fs;
use std::fs::OpenFile;
use std::io::Read;
use std::marker::Model;
use std::rt::Files;

/// A shelf over the files of the operating system. Its clauses say nothing about their content.
///
/// A plain file that was begun can't be begun again, by whatever name, and a shelf begins at most 16 of them. A file is begun
/// once the devices have all bytes of those before it.
#[derive(Drop)]
pub struct DiskShelf<R: Files + Drop> {
    rt: R,
    reading: Option<R::File>,
    writing: Option<BegunFile<R::File>>,
    // A file that a read ended, until its device has all its bytes.
    ended: Option<BegunFile<R::File>>,
    begun: FileIds,
    syncs: SyncCounts,
    counts: ShelfCounts,
}

impl<R: Files + Drop> Model for DiskShelf<R> {
    ghost Value = { DiskValue };

    ghost view = { λ shelf. record { is_reading = is_some shelf.reading; is_writing = is_some shelf.writing; counts = shelf.counts; syncs = shelf.syncs } };
}

impl<R: Files + Drop> DiskShelf<R> {
    /// Creates a shelf over a runtime that has files. No file is being read or written, and no call has failed.
    pub fn make(rt: R) -> DiskShelf<R>
        ensures { result ≡ record { is_reading = false; is_writing = false; counts = no_counts; syncs = no_syncs } }
    {
        DiskShelf {
            rt,
            reading: None,
            writing: None,
            ended: None,
            begun: FileIds::new(),
            syncs: SyncCounts::new(),
            counts: ShelfCounts::new(),
        }
    }

    // Ends what is being written, and waits until the devices have all bytes of each file that was begun.
    fn sync(&mut self) -> Result<(), Failed>
        ensures ok { OnOk result (self.new ≡ all_synced self.old) }
        ensures err { OnErr result (self.new ≡ record self.old { is_writing = false; syncs = self.new.syncs }) }
        ensures err_begun { OnErr result (self.new.syncs.begun ≡ self.old.syncs.begun) }
    {
        if let Some(file) = self.writing.take() {
            self.syncs.sync(&file)?;
        }
        if let Some(file) = self.ended.take() {
            self.syncs.sync(&file)?;
        }
        if self.syncs.are_synced() {
            Ok(())
        } else {
            Err(Failed)
        }
    }

    /// Ends what is being written, and waits until the devices have all bytes of each file that was begun.
    ///
    /// # Errors
    /// `Failed` if a device refuses bytes that `push` took, as a quota or a network disk may, now or when the next file was
    /// begun. It counts as a write fault.
    pub fn settle(&mut self) -> Result<(), Failed>
        ensures ok { OnOk result (self.new ≡ all_synced self.old) }
        ensures err { OnErr result (self.new ≡ record self.old { is_writing = false; counts = with_write_fault self.old.counts; syncs = self.new.syncs }) }
        ensures err_begun { OnErr result (self.new.syncs.begun ≡ self.old.syncs.begun) }
    {
        if self.sync().is_err() {
            self.counts.count_write_fault();
            return Err(Failed);
        }
        Ok(())
    }

    // Opens the next file and empties it, unless it was begun already.
    fn begin(&mut self, name: &str) -> Result<BegunFile<R::File>, Failed>
        ensures ok { OnOk result (self.new ≡ record self.old { is_writing = false; syncs = self.new.syncs }) }
        ensures ok_syncs { OnOk result (BeginsAfterSync self.old.syncs self.new.syncs) }
        ensures ok_place { IfOk result (λ file. file.place ≡ self.old.syncs.begun) }
        ensures err { OnErr result (self.new ≡ record self.old { is_writing = false; syncs = self.new.syncs }) }
        ensures err_begun { OnErr result (self.new.syncs.begun ≡ self.old.syncs.begun) }
    {
        self.sync()?;
        let file = opened(&self.rt, name)?;
        let Ok(metadata) = file.metadata() else {
            return Err(Failed);
        };
        if let Some(id) = FileId::of(&metadata) {
            self.begun.add(id)?;
        }
        emptied(&file, &metadata)?;
        Ok(self.syncs.begin(file))
    }
}

// The most bytes that one read asks for.
const PIECE: usize = 4_096;

// Reads the next bytes of a file to the front of the buffer. A failed read may leave anything in its buffer, so the bytes are
// read into a separate piece first.
fn read_piece<F: Read>(file: &mut F, buf: &mut [u8]) -> Result<usize, Failed>
    ensures bound { IfOk result (λ count. count ≤ length buf.new) }
    ensures kept { OnErr result (buf.new ≡ buf.old) }
{
    let mut piece = [0; PIECE];
    let most = buf.len().min(PIECE);
    match file.read(&mut piece[..most]) {
        Ok(count) => {
            buf[..count].copy_from_slice(&piece[..count]);
            Ok(count)
        }
        Err(_) => Err(Failed),
    }
}

impl<R: Files + Drop> Shelf for DiskShelf<R> {
    ghost seen = { λ shelf. shelf_on_disk shelf };

    fn begin_read(&mut self, name: &str) -> Result<(), Failed>
        ensures cause { HasCause (shelf_on_disk self.old).read_faults (shelf_on_disk self.new).read_faults result }
        ensures begins { Begins (shelf_on_disk self.old) name.now (shelf_on_disk self.new) result }
        ensures ends_writing { (shelf_on_disk self.new).is_writing ≡ false }
        ensures name { (shelf_on_disk self.new).name ≡ take NAME_ROOM name.now }
        ensures given { (shelf_on_disk self.new).given ≡ 0 }
        ensures before { (shelf_on_disk self.new).before ≡ (shelf_on_disk self.old).read_faults }
        ensures files { (shelf_on_disk self.new).files ≡ (shelf_on_disk self.old).files }
        ensures write_faults { (shelf_on_disk self.new).write_faults ≡ (shelf_on_disk self.old).write_faults }
        ensures syncs { self.new.syncs ≡ self.old.syncs }
    {
        self.counts.begin_read(name);
        if let Some(file) = self.writing.take() {
            self.ended = Some(file);
        }
        match fs::open(&self.rt, name) {
            Ok(file) => {
                self.reading = Some(file);
                Ok(())
            }
            Err(_) => {
                self.reading = None;
                self.counts.count_read_fault();
                Err(Failed)
            }
        }
    }

    fn pull(&mut self, buf: &mut [u8]) -> Result<usize, Failed>
        requires { IsTrue (shelf_on_disk self.old).is_reading }
        ensures cause { HasCause (shelf_on_disk self.old).read_faults (shelf_on_disk self.new).read_faults result }
        ensures pulls { Pulls (shelf_on_disk self.old) (shelf_on_disk self.new) buf.new result }
        ensures kept { OnErr result (buf.new ≡ buf.old) }
        ensures reading { IsTrue (shelf_on_disk self.new).is_reading }
        ensures is_writing { (shelf_on_disk self.new).is_writing ≡ (shelf_on_disk self.old).is_writing }
        ensures writing { (shelf_on_disk self.new).writing ≡ (shelf_on_disk self.old).writing }
        ensures name { (shelf_on_disk self.new).name ≡ (shelf_on_disk self.old).name }
        ensures before { (shelf_on_disk self.new).before ≡ (shelf_on_disk self.old).before }
        ensures files { (shelf_on_disk self.new).files ≡ (shelf_on_disk self.old).files }
        ensures write_faults { (shelf_on_disk self.new).write_faults ≡ (shelf_on_disk self.old).write_faults }
        ensures syncs { self.new.syncs ≡ self.old.syncs }
    {
        let mut count = 0;
        if let Some(file) = &mut self.reading {
            match read_piece(file, buf) {
                Ok(given) => count = given,
                Err(Failed) => {
                    self.counts.count_read_fault();
                    return Err(Failed);
                }
            }
        }
        self.counts.give(count);
        Ok(count)
    }

    fn begin_write(&mut self, name: &str) -> Result<(), Failed>
        ensures cause { HasCause (shelf_on_disk self.old).write_faults (shelf_on_disk self.new).write_faults result }
        ensures begins { BeginsWrite (shelf_on_disk self.old) name.now (shelf_on_disk self.new) result }
        ensures ends_reading { (shelf_on_disk self.new).is_reading ≡ false }
        ensures name { (shelf_on_disk self.new).name ≡ (shelf_on_disk self.old).name }
        ensures given { (shelf_on_disk self.new).given ≡ (shelf_on_disk self.old).given }
        ensures before { (shelf_on_disk self.new).before ≡ (shelf_on_disk self.old).before }
        ensures read_faults { (shelf_on_disk self.new).read_faults ≡ (shelf_on_disk self.old).read_faults }
        ensures begun { OnOk result (BeginsAfterSync self.old.syncs self.new.syncs) }
        ensures not_begun { OnErr result (self.new.syncs.begun ≡ self.old.syncs.begun) }
    {
        self.reading = None;
        match self.begin(name) {
            Ok(file) => {
                self.writing = Some(file);
                Ok(())
            }
            Err(Failed) => {
                self.counts.count_write_fault();
                Err(Failed)
            }
        }
    }

    fn push(&mut self, piece: &[u8]) -> Result<(), Failed>
        requires { IsTrue (shelf_on_disk self.old).is_writing }
        ensures cause { HasCause (shelf_on_disk self.old).write_faults (shelf_on_disk self.new).write_faults result }
        ensures grown { Puts (written (shelf_on_disk self.old)) (written (shelf_on_disk self.new)) piece.now result }
        ensures writing { IsTrue (shelf_on_disk self.new).is_writing }
        ensures apart { apart (shelf_on_disk self.new) ≡ apart (shelf_on_disk self.old) }
        ensures syncs { self.new.syncs ≡ self.old.syncs }
    {
        if let Some(begun) = &mut self.writing {
            if write_whole(&mut begun.file, piece).is_err() {
                self.counts.count_write_fault();
                return Err(Failed);
            }
        }
        Ok(())
    }

    ghost read_faults_end = { λ shelf. Prim.search rules };

    ghost write_faults_end = { λ shelf. Prim.search rules };
}
