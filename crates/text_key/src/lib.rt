//! The key of a hash, computed from the text whose names are hashed.
//!
//! A hash with a fixed key is known to whoever writes a text, who can choose names that all collide. Here the hash of a name
//! depends on a key of 128 bits, and a [`Digest`] computes the key from all that is hashed. So the hash is known only when all
//! names are chosen, and another name, also in a comment, changes all of it.
//!
//! The digest is built from the rounds of SipHash-1-3 (Aumasson and Bernstein 2012), a word of eight bytes at a time, with both
//! halves of SipHash's long output. Under a key names are hashed by a [`KeyedHasher`], by one product with a secret factor for
//! each word.
//!
//! `specs/Digest.antt` defines the key of a text, and `specs/KeyedHash.antt` the hash under a key.
#![tactic(auto)]

mod digest;
mod key;
mod keyed_hasher;
mod words;

pub use digest::Digest;
pub use key::TextKey;
pub use keyed_hasher::KeyedHasher;
