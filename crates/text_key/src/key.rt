//! The keys of hashes.
ghost use Rattle.std.specs.Prelude.{◌≡◌};
ghost use Rattle.text_key.specs.Digest.{key_of};

use crate::digest::Digest;
use crate::keyed_hasher::KeyedHasher;
use std::hash::BuildHasher;

/// The key of a hash. As a `BuildHasher` it makes the hashers under this key.
#[derive(Clone, Copy)]
pub struct TextKey {
    pub(crate) start: u64,
    pub(crate) factor: u64,
}

impl TextKey {
    /// The key of a text. It depends on each byte. The time is linear in the bytes.
    pub fn of(text: &[u8]) -> TextKey
        ensures { result ≡ key_of text.now }
    {
        let mut digest = Digest::new();
        digest.add(text);
        digest.key()
    }
}

impl BuildHasher for TextKey {
    type Hasher = KeyedHasher;

    ghost use Rattle.text_key.specs.KeyedHash.{hasher_of};

    ghost build_hasher = { hasher_of };

    fn build_hasher(&self) -> KeyedHasher {
        KeyedHasher::new(*self)
    }
}
