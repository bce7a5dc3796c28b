//! Which files were begun, and of which their devices have all bytes.
ghost use Rattle.std.specs.Prelude.{◌≡◌, ◌↔◌, IsTrue, OnOk, OnErr};
ghost use Rattle.tl_io.specs.Written.{AreSynced, no_syncs, with_begun, with_synced};

use crate::Failed;
use std::fs::OpenFile;
use std::marker::Model;

/// A file that was begun, with its place: how many were begun before it.
#[derive(Drop)]
pub struct BegunFile<F: Drop> {
    pub file: F,
    place: u64,
}

/// How many files were begun, and of how many of the first ones their devices have all bytes. Only a sync of the file that comes
/// next raises the second number.
#[derive(Drop)]
pub struct SyncCounts {
    begun: u64,
    synced: u64,
}

impl Model for SyncCounts {
    ghost use Rattle.tl_io.specs.Written.{Syncs};

    ghost Value = { Syncs };

    ghost view = { λ counts. record { begun = counts.begun; synced = counts.synced } };
}

impl SyncCounts {
    pub fn new() -> SyncCounts
        ensures { result ≡ no_syncs }
    {
        SyncCounts {
            begun: 0,
            synced: 0,
        }
    }

    /// Records that a file was begun, and gives it its place.
    pub fn begin<F: Drop>(&mut self, file: F) -> BegunFile<F>
        ensures counted { self.new ≡ with_begun self.old }
        ensures placed { result ≡ record { file = file; place = self.old.begun } }
    {
        let place = self.begun;
        self.begun = self.begun.saturating_add(1);
        BegunFile { file, place }
    }

    /// Waits until the device has all bytes of a file, and records it if the file comes next. A pipe or a terminal has no device
    /// to wait for.
    ///
    /// # Errors
    /// `Failed` if the device refuses bytes. Nothing is recorded.
    pub fn sync<F: OpenFile + Drop>(&mut self, begun: &BegunFile<F>) -> Result<(), Failed>
        ensures ok { OnOk result (self.new ≡ with_synced begun.now.place self.old) }
        ensures err { OnErr result (self.new ≡ self.old) }
    {
        let Ok(metadata) = begun.file.metadata() else {
            return Err(Failed);
        };
        if metadata.is_file() && begun.file.sync_data().is_err() {
            return Err(Failed);
        }
        if begun.place == self.synced {
            self.synced = self.synced.saturating_add(1);
        }
        Ok(())
    }

    /// Returns whether the devices have all bytes of each file that was begun.
    pub fn are_synced(&self) -> bool
        ensures { IsTrue result ↔ AreSynced self.now }
    {
        self.synced == self.begun
    }
}
