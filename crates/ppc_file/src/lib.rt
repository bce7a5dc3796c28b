//! Pack files. A pack has exactly one encoding in each of two versions.
//!
//! # The idea
//!
//! A pack has the bits of a configuration as functions of the parameters, over one AND graph. Its file is shipped to a device
//! whose coefficients change: the host plays it without the netlist. A file contains the names of the parameters with their
//! initial values, the fan-ins of the nodes, and the literal of each bit. Version 1 has numbers of two and four bytes.
//! Version 2 has bytes of seven bits, as in LEB128, and encodes each fan-in by its distance below the node, which is small in
//! most graphs.
//!
//! # One encoding
//!
//! A number of version 2 has no needless byte, fan-ins are in ascending order, and no pair and no name occurs twice. So each
//! pack has one file of each version, and each accepted file is the file of one pack.
//!
//! # Refusals
//!
//! A file is read field by field, and refused at the first field that breaks a rule, with the offset of that field. This is
//! defined independently of the decoder (`specs/PackFile.antt`): the file begins with a *front*, whose fields obey all rules,
//! and the next field is refused (`specs/Fronts.antt`, `specs/Fields.antt`). The next field is a function of the front and of
//! the bytes that are left. `proofs/ReadsLemmas.antt` shows that reading from the first byte meets each sound front with
//! which a file begins. So a file has at most one pack or at most one refusal, and never both (`proofs/OneReading.antt`).
//!
//! An index of names finds a repeated name, and that of the new graph a repeated pair. The counts in a file reserve no
//! memory: vectors grow as their elements are read, and the graph's sources are created when all parameters have been read.
//!
//! `proofs/FileExamples.antt` works out two packs in both versions, and files that are refused.
#![tactic(auto)]

mod add_number;
mod add_parts;
mod decoder;
mod encoder;
mod field;
mod number;
mod pack_err;
mod read_bits;
mod read_nodes;
mod read_params;
mod version;

pub use decoder::decode;
pub use encoder::{encode, encode_one};
pub use pack_err::PackErr;
