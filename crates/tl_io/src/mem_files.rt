//! The files of an in-memory shelf.
ghost use Rattle.std.specs.Prelude.{◌≡◌, ◌≤◌, is_some, IsSome, IfSome, IfOk, OnOk, OnErr, Some, length, min, take, drop, position, string_bytes};
ghost use Rattle.std.specs.FinMap.{get};
ghost use Rattle.std.specs.Option.{option_map};
ghost use Rattle.tl_io.specs.MemFiles.{is_named};

use crate::mem_file::{Activity, MemFile};
use std::alloc::{AllocError, Global};
use std::marker::Model;

/// The files of an in-memory shelf, and which of them is being read or written. If several files have the same name, the
/// first one counts.
#[derive(Drop)]
pub struct MemFiles {
    alloc: Global,
    files: Vec<MemFile>,
    activity: Activity,
}

impl Model for MemFiles {
    ghost use Rattle.tl_io.specs.Store.{Store, store_code};

    ghost Value = { Store };

    ghost coded = { store_code };

    ghost use Rattle.tl_io.specs.MemFiles.{store_of, IsFirstWritten};

    ghost view = { λ store. store_of store.files.items store.activity };

    ghost invariant = { λ store. IsFirstWritten store.files.items store.activity };
}

impl MemFiles {
    ghost use Rattle.tl_io.specs.Store.{no_files, added, closed, created, opened, appended, room_left};
    ghost use Rattle.tl_io.specs.Content.{extended};
    ghost use Rattle.tl_io.specs.Shelf.{Gives, files_but, written_at};

    /// Creates a list without files.
    pub fn new(alloc: Global) -> MemFiles
        ensures { result ≡ no_files }
    {
        MemFiles {
            alloc,
            files: Vec::new(alloc),
            activity: Activity::Idle,
        }
    }

    /// Adds a file that can hold this many bytes when it is written.
    pub fn add(&mut self, name: &str, bytes: &[u8], room: usize) -> Result<(), AllocError>
        ensures ok { OnOk result (self.new ≡ added self.old name.now bytes.now room) }
        ensures err { OnErr result (self.new ≡ self.old) }
    {
        let file = make_file(self.alloc, name, bytes, room)?;
        self.files.insert(0, file)?;
        self.activity = Activity::Idle;
        Ok(())
    }

    /// Returns the bytes of the file of this name.
    pub fn bytes(&self, name: &str) -> Option<&[u8]>
        ensures { option_map (λ bytes. bytes.now) result ≡ get self.now.files name.now }
    {
        match place_of(&self.files, name) {
            Some(i) => Some(self.files[i].bytes.as_slice()),
            None => None,
        }
    }

    /// Starts to read the file of this name. Returns whether it exists. Any earlier reading or writing ends.
    pub fn open(&mut self, name: &str) -> bool
        ensures found { result ≡ is_some (get self.old.files name.now) }
        ensures opened { self.new ≡ opened self.old name.now }
    {
        match place_of(&self.files, name) {
            Some(file) => {
                self.activity = Activity::Reading { file, at: 0 };
                true
            }
            None => {
                self.activity = Activity::Idle;
                false
            }
        }
    }

    /// Ends any reading or writing.
    pub fn close(&mut self)
        ensures { self.new ≡ closed self.old }
    {
        self.activity = Activity::Idle;
    }

    /// Empties the file of this name and starts to write it. Returns whether it exists. Any earlier reading or writing
    /// ends.
    pub fn create(&mut self, name: &str) -> bool
        ensures found { result ≡ is_some (get self.old.files name.now) }
        ensures created { self.new ≡ created self.old name.now }
    {
        match place_of(&self.files, name) {
            Some(file) => {
                let written = &mut self.files[file];
                written.bytes.clear();
                self.activity = Activity::Writing { file };
                true
            }
            None => {
                self.activity = Activity::Idle;
                false
            }
        }
    }

    /// Copies the next bytes of the file that is being read: at most `piece` bytes, and at most the length of the buffer.
    pub fn give(&mut self, piece: usize, buf: &mut [u8]) -> usize
        requires some_piece { 1 ≤ piece }
        requires reading { IsSome self.old.left }
        ensures bound { result ≤ length buf.new }
        ensures gives { Gives self.old.left self.new.left result buf.new }
        ensures count { IfSome self.old.left (λ bytes. result ≡ min (min (length bytes) piece) (length buf.new)) }
        ensures files { self.new ≡ record self.old { left = self.new.left } }
    {
        let Activity::Reading { file, at } = self.activity else {
            return 0;
        };
        let Some(read) = self.files.get(file) else {
            return 0;
        };
        let count = copy_next(&read.bytes, at, piece, buf);
        self.activity = Activity::Reading {
            file,
            at: at + count,
        };
        count
    }

    /// Returns how many more bytes fit into the file that is being written.
    pub fn room_left(&self) -> usize
        ensures { result ≡ room_left self.now }
    {
        if let Activity::Writing { file } = self.activity {
            let written = &self.files[file];
            return written.room.saturating_sub(written.bytes.len());
        }
        0
    }

    /// Appends a text to the file that is being written.
    pub fn append(&mut self, text: &[u8])
        requires { length text.now ≤ room_left self.old }
        ensures after { self.new ≡ appended self.old text.now }
        ensures grown { written_at (Some self.new.files) self.new.writing ≡ extended (written_at (Some self.old.files) self.old.writing) text.now }
        ensures others { files_but (Some self.new.files) self.new.writing ≡ files_but (Some self.old.files) self.old.writing }
    {
        if let Activity::Writing { file } = self.activity {
            let written = &mut self.files[file];
            let _ = written.bytes.extend_from_slice(text);
        }
    }
}

// Creates a file that can hold this many bytes.
fn make_file(alloc: Global, name: &str, bytes: &[u8], room: usize) -> Result<MemFile, AllocError>
    ensures name { IfOk result (λ file. string_bytes file.name ≡ name.now) }
    ensures bytes { IfOk result (λ file. file.bytes.items ≡ bytes.now) }
    ensures room { IfOk result (λ file. file.room ≡ room) }
{
    let name = String::from_str(alloc, name)?;
    let mut held = Vec::with_capacity(alloc, room.max(bytes.len()))?;
    held.extend_from_slice(bytes)?;
    Ok(MemFile {
        name,
        bytes: held,
        room,
    })
}

// Returns the index of the first file of this name.
fn place_of(files: &[MemFile], name: &str) -> Option<usize>
    ensures first { result ≡ position (is_named name.now) files.now }
{
    files
        .iter()
        .position(|file| name.cmp(file.name.as_str()).is_eq())
}

// Copies the next bytes: at most `piece` of them, and at most the length of the buffer.
fn copy_next(bytes: &[u8], at: usize, piece: usize, buf: &mut [u8]) -> usize
    requires { 1 ≤ piece }
    ensures count { result ≡ min (min (length (drop at bytes.now)) piece) (length buf.new) }
    ensures given { take result buf.new ≡ take result (drop at bytes.now) }
{
    let start = at.min(bytes.len());
    let rest = &bytes[start..];
    let count = rest.len().min(piece).min(buf.len());
    buf[..count].copy_from_slice(&rest[..count]);
    count
}
