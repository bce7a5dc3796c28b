//! The files that were begun.
ghost use Rattle.std.specs.Prelude.{◌≡◌, ◌≤◌, [], ◌∷◌, ◌++◌, length, false, OnOk, OnErr};
ghost use Rattle.tl_io.specs.Written.{is_among};

use crate::Failed;
use crate::file_id::FileId;
use arrayvec::ArrayVec;
use std::marker::Model;

/// The most files that are kept.
pub const FILES_ROOM: usize = 16;

/// The plain files that were begun, at most 16. They are stored in place, so no memory is allocated.
#[derive(Drop)]
pub struct FileIds {
    files: ArrayVec<FileId, FILES_ROOM>,
}

impl Model for FileIds {
    ghost use Rattle.std.specs.Prelude.{List};
    ghost use Rattle.tl_io.specs.declared.file_id.FileId.{FileId};

    ghost Value = { List FileId };

    ghost view = { λ ids. ids.files.items };
}

impl FileIds {
    pub fn new() -> FileIds
        ensures { result ≡ [] }
    {
        FileIds {
            files: ArrayVec::new(),
        }
    }

    // Returns whether a file is there, by whatever name.
    fn has(&self, file: FileId) -> bool
        ensures { result ≡ is_among self.now file }
    {
        self.files.as_slice().contains(&file)
    }

    /// Adds a file.
    ///
    /// # Errors
    /// `Failed` if the file is there already, by whatever name, or if there is no room.
    pub fn add(&mut self, file: FileId) -> Result<(), Failed>
        ensures added { OnOk result (self.new ≡ self.old ++ file ∷ []) }
        ensures apart { OnOk result (is_among self.old file ≡ false) }
        ensures kept { OnErr result (self.new ≡ self.old) }
        ensures cause { OnErr result (is_among self.old file ≡ false → FILES_ROOM ≤ length self.old) }
    {
        if self.has(file) {
            return Err(Failed);
        }
        if self.files.len() >= FILES_ROOM {
            return Err(Failed);
        }
        self.files.push(file);
        Ok(())
    }
}
