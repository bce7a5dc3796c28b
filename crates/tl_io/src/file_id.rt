//! Which file of the system an open file is, and opening a file without emptying it.

use crate::Failed;
use std::fs;
use std::fs::{File, Metadata, OpenFile};
use std::os::unix::fs::MetadataExt;
use std::rt::Files;

/// A plain file of the system: its device, and its number there. It has the same two by each of its names.
#[derive(Clone, Copy, Debug, Default, PartialEq, Eq)]
pub struct FileId {
    device: u64,
    number: u64,
}

impl FileId {
    /// Returns which plain file this is. `None` for any other file, such as a pipe or a terminal: writing it again loses
    /// nothing.
    pub fn of(metadata: &Metadata) -> Option<FileId> {
        if !metadata.is_file() {
            return None;
        }
        Some(FileId {
            device: metadata.dev(),
            number: metadata.ino(),
        })
    }

    /// Returns to which plain file a name leads. `None` if it leads to no file or to another kind of file.
    pub fn at<R: Files>(rt: &R, name: &str) -> Option<FileId> {
        match fs::metadata(rt, name) {
            Ok(metadata) => FileId::of(&metadata),
            Err(_) => None,
        }
    }
}

/// Opens the file of this name for writing. If there is none, it is created. If there is one, its bytes stay.
pub fn opened<R: Files>(rt: &R, name: &str) -> Result<R::File, Failed> {
    match File::options().write(true).create(true).open(rt, name) {
        Ok(file) => Ok(file),
        Err(_) => Err(Failed),
    }
}

/// Empties an open file, if it is a plain file.
pub fn emptied<F: OpenFile>(file: &F, metadata: &Metadata) -> Result<(), Failed> {
    if !metadata.is_file() || metadata.len() == 0 {
        return Ok(());
    }
    file.set_len(0).map_err(|_| Failed)
}
