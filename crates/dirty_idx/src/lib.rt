//! What an incremental evaluation needs: a set of marked numbers, and the readers of each node.
//!
//! If few parameters of a pack change, few nodes of its graph change their values. Evaluating only these works as follows:
//! the readers of each changed node are marked, and the least mark is taken until no mark is left. An AND node is above its
//! fan-ins, so each marked node is read once, after everything that it depends on.
//!
//! `Tiers` is the set, seen as its marks, one for each number below its size (`specs/Marks.antt`). It is a bit set in layers,
//! with 64 words of a layer below each word of the layer above. Finding the least member reads one word of each layer, or only
//! one word if the member taken before was in the same word.
//!
//! `Readers` has for each node of a pack's graph the AND nodes that have it as a fan-in and the addresses of the bits that
//! are its literals, exactly and ascending (`specs/Readers.antt`). The lists are one after another in one vector, built by
//! counting, as in a counting sort (Knuth, The Art of Computer Programming, volume 3, section 5.2).
//!
//! `CountedPack` is a pack whose pairs can be read only by a call that counts, so a contract can bound the number of reads.
//! Each read is a step of the counter that is passed in, and adds one to the pack's own number of reads, a [`Tally`] that
//! takes no bytes.
//!
//! `proofs/ReadLemmas.antt` shows, for the crates above, that a reader is an AND node above the node that it reads, and that
//! an address is one of the pack. `proofs/Examples.antt` works out a set and the readers
//! of a small pack.
#![tactic(auto)]

mod counted;
mod lists;
mod readers;
mod tally;
mod tiers;

pub use counted::CountedPack;
pub use readers::Readers;
pub use tally::Tally;
pub use tiers::{MOST_MARKS, Tiers};
