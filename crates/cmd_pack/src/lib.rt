//! The commands `bits` and `repack`: they read a pack, and play a host script on it or write it again.
//!
//! - `bits/` and `repack/` are the commands: the arguments of each, its preparation, and its playing or writing.
//!
//! The folders of `specs/` are the same.
#![tactic(auto)]

mod bits;
mod repack;

pub use bits::job::bits_job;
pub use bits::words::{BitsWords, file_name as bits_name, read_bits};
pub use repack::job::repack_job;
pub use repack::words::{RepackWords, read_repack};
