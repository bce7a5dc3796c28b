//! The digest that keys are computed from.
ghost use Rattle.std.specs.Prelude.{◌≡◌, length, ◌/◌, ◌*◌, drop};
ghost use Rattle.std.specs.List.{fold};
ghost use Rattle.text_key.specs.Digest.{start, behind_key, rounded, with_word, with_chunk, with_bytes, key_word, key_of_digest};

use crate::key::TextKey;
use crate::words::behind;

/// What a key is computed from: the state of SipHash after the bytes that were added.
#[derive(Clone, Copy)]
pub struct Digest {
    v0: u64,
    v1: u64,
    v2: u64,
    v3: u64,
}

// A round of SipHash.
#[inline(always)]
fn round(state: Digest) -> Digest
    ensures { result ≡ rounded state }
{
    let a0 = state.v0.wrapping_add(state.v1);
    let a2 = state.v2.wrapping_add(state.v3);
    let a1 = state.v1.rotate_left(13) ^ a0;
    let a3 = state.v3.rotate_left(16) ^ a2;
    let b0 = a0.rotate_left(32).wrapping_add(a3);
    let b2 = a2.wrapping_add(a1);
    Digest {
        v0: b0,
        v1: a1.rotate_left(17) ^ b2,
        v2: b2.rotate_left(32),
        v3: a3.rotate_left(21) ^ b0,
    }
}

// The state after a word.
#[inline(always)]
fn after_word(state: Digest, word: u64) -> Digest
    ensures { result ≡ with_word state word }
{
    let mixed = round(Digest {
        v3: state.v3 ^ word,
        ..state
    });
    Digest {
        v0: mixed.v0 ^ word,
        ..mixed
    }
}

// The state after words of eight bytes, the lowest first.
#[inline(always)]
fn after_chunks(state: Digest, chunks: &[[u8; 8]]) -> Digest
    ensures { result ≡ fold with_chunk state chunks.now }
{
    let mut all = state;
    for chunk in chunks {
        all = after_word(all, u64::from_le_bytes(*chunk));
    }
    all
}

// The state after three rounds.
fn after_three(state: Digest) -> Digest
    ensures { result ≡ rounded (rounded (rounded state)) }
{
    round(round(round(state)))
}

// The four words of the state, joined.
fn joined(state: Digest) -> u64
    ensures { result ≡ key_word state }
{
    state.v0 ^ state.v1 ^ state.v2 ^ state.v3
}

impl Digest {
    /// The digest of nothing.
    pub fn new() -> Digest
        ensures { result ≡ start }
    {
        Digest {
            v0: 0x736f_6d65_7073_6575,
            v1: 0x646f_7261_6e64_6f83,
            v2: 0x6c79_6765_6e65_7261,
            v3: 0x7465_6462_7974_6573,
        }
    }

    /// The digest of what a key was computed from.
    pub fn behind(key: TextKey) -> Digest
        ensures { result ≡ behind_key key }
    {
        let start = Digest::new();
        Digest {
            v0: start.v0 ^ key.start,
            v1: start.v1 ^ key.factor,
            v2: start.v2 ^ key.start,
            v3: start.v3 ^ key.factor,
        }
    }

    /// Adds bytes: words of eight, and then a word of those that are left over after a 1. The time is linear in their number.
    pub fn add(&mut self, bytes: &[u8])
        ensures { self.new ≡ with_bytes self.old bytes.now }
    {
        let (chunks, rest) = bytes.as_chunks::<8>();
        let state = after_chunks(*self, chunks);
        *self = after_word(state, behind(1, rest));
    }

    /// The key of the bytes that were added.
    pub fn key(&self) -> TextKey
        ensures { result ≡ key_of_digest self.now }
    {
        let first = after_three(Digest {
            v2: self.v2 ^ 0xee,
            ..*self
        });
        let second = after_three(Digest {
            v1: first.v1 ^ 0xdd,
            ..first
        });
        TextKey {
            start: joined(first),
            factor: joined(second) | 1,
        }
    }
}
