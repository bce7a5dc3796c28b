//! The first bytes of a name, kept without allocating memory.
ghost use Rattle.std.specs.Prelude.{◌≡◌, ◌≤◌, [], List, ℕ, length, take};

use std::marker::Model;

/// The most bytes of a name that are kept.
pub const NAME_ROOM: usize = 4_096;

// The contracts name the constant; this is its number.
const _: () = prove!(NAME_ROOM == 4_096);

/// The first `NAME_ROOM` bytes of a name.
#[derive(Drop)]
pub struct ToldName {
    bytes: [u8; NAME_ROOM],
    len: usize,
}

impl Model for ToldName {
    ghost use Rattle.std.specs.Prelude.{◌≤◌, List, ℕ, take};
    ghost use Rattle.tl_io.specs.declared.told_name.TheConstants.{NAME_ROOM};

    ghost Value = { List ℕ };

    ghost view = { λ told. take told.len told.bytes };

    ghost invariant = { λ told. told.len ≤ NAME_ROOM };
}

impl ToldName {
    pub fn new() -> ToldName
        ensures { result ≡ [] }
    {
        ToldName {
            bytes: [0; NAME_ROOM],
            len: 0,
        }
    }

    pub fn set(&mut self, name: &[u8])
        ensures { self.new ≡ take NAME_ROOM name.now }
    {
        let len = name.len().min(NAME_ROOM);
        self.bytes[..len].copy_from_slice(&name[..len]);
        self.len = len;
    }

    pub fn bytes(&self) -> &[u8]
        ensures { result.now ≡ self.now }
    {
        &self.bytes[..self.len]
    }
}
