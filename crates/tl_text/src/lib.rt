//! Splits texts into lines and tokens.
//!
//! [`lines`] splits a text. A *physical line* ends at a line feed, or at the end of the text. A carriage return directly before
//! a line feed is dropped. The *content* of a physical line is the part before its first `#`, without blanks and tabs at the
//! end. If the content ends in `\`, the line continues in the next physical line, and this `\` counts as a blank. A *logical
//! line* is a physical line with its continuations. Its number is that of its first physical line, counted from 1. At the end
//! of the text nothing is joined. A *token* is a run of bytes of a content between blanks and tabs. Logical lines without
//! tokens are dropped.
//!
//! A text is refused for two reasons. The refusal reports the number of the physical line:
//!
//! - T1: a byte that no line may contain, not even in a comment: a byte below 32 other than the tab, or the byte 127.
//! - T2: a token that ends in `\`, after the `\` that continues a line became a blank.
//!
//! The first physical line with a reason counts. If one line has both, T1 is reported (`specs/Lines.antt`).
//!
//! [`decimal`] and [`bit`] read the number or the bit that a token spells (`specs/Decimal.antt`).
//!
//! A [`Name`] holds the bytes of one token. A [`NameIndex`] numbers names: the *place* of a name is the number of names that
//! were added before it. No name is repeated. Contracts see the list of the names in the order of their places
//! (`specs/NameIndex.antt`). `specs/NameSets.antt` treats lists of names as sets.
//!
//! `specs/WrittenText.antt` defines how lines of words are written. `proofs/WrittenLineLemmas.antt` shows that reading them gives
//! the same words, if each word is clean.
//!
//! `limits.rt` has limits that parameter lists and packs share.
#![tactic(auto)]

mod decimals;
mod limits;
mod line;
mod logical_lines;
mod name_index;
mod physical_line;
mod reader;
mod sought;
mod text_err;
mod token;

pub use decimals::{bit, decimal};
pub use limits::{MOST_NAME_BYTES, MOST_PARAMETERS};
pub use line::Line;
pub use logical_lines::{MOST_BYTES, lines};
pub use name_index::NameIndex;
pub use text_err::TextErr;
pub use text_key::{Digest, TextKey};
pub use tl_fault::Name;
pub use token::Token;
