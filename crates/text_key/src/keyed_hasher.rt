//! The hasher under a key.
ghost use Rattle.std.specs.Prelude.{◌≡◌};
ghost use Rattle.std.specs.List.{fold};
ghost use Rattle.text_key.specs.KeyedHash.{folded, with_chunk, hasher_of};

use crate::key::TextKey;
use crate::words::behind;
use std::hash::Hasher;

/// Hashes bytes eight at a time, each word folded into the hash. Those that are left over are collected after a 1, so that the
/// last word tells where the bytes end.
#[derive(Clone, Copy)]
pub struct KeyedHasher {
    hash: u64,
    pending: u64,
    factor: u64,
}

// The two halves of a word's product with the factor, joined by an exclusive or.
#[inline(always)]
fn folded(factor: u64, word: u64) -> u64
    ensures { result ≡ folded factor word }
{
    let product = word as u128 * factor as u128;
    (product & 0xFFFF_FFFF_FFFF_FFFF) as u64 ^ (product >> 64) as u64
}

impl KeyedHasher {
    /// The hasher under this key, before the first byte.
    pub(crate) fn new(key: TextKey) -> KeyedHasher
        ensures { result ≡ hasher_of key }
    {
        KeyedHasher {
            hash: key.start,
            pending: 1,
            factor: key.factor,
        }
    }

    // Takes eight bytes.
    fn fold_in(&mut self, chunk: &[u8; 8])
        ensures { self.new ≡ with_chunk self.old chunk.now }
    {
        self.hash = folded(self.factor, self.hash ^ u64::from_le_bytes(*chunk));
    }

    fn fold_all(&mut self, chunks: &[[u8; 8]])
        ensures { self.new ≡ fold with_chunk self.old chunks.now }
    {
        for chunk in chunks {
            self.fold_in(chunk);
        }
    }
}

impl Hasher for KeyedHasher {
    ghost use Rattle.text_key.specs.KeyedHash.{written, hash_of};

    ghost write = { written };

    ghost finish = { hash_of };

    fn finish(&self) -> u64 {
        let last = folded(self.factor, self.hash ^ self.pending);
        folded(self.factor, last)
    }

    fn write(&mut self, bytes: &[u8]) {
        let (chunks, rest) = bytes.as_chunks::<8>();
        self.fold_all(chunks);
        self.pending = behind(self.pending, rest);
    }
}
