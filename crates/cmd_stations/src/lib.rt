//! The stations that commands share, in the order of work. Each reads a file or processes what was read, and refuses it
//! before the next one is reached.
//!
//! A *source circuit* is a netlist with its parameters. It is *mapped* to LUTs, whose bits are a *pack*. A *draft*
//! ([`WritableSource`]) is a mapped source circuit that is ready to be written. A *stop* is the reason why a text can't be
//! read or a source circuit can't be mapped. Together with a file it becomes an outcome.
//!
//! - From a netlist to its graph, the graph's labels or its mapping: `files.rt`, `library_text.rt`, `netlist_text.rt`,
//!   `params.rt`, `graphs.rt` with `limits.rt`, `labelling.rt`, `mapping.rt`, `mapped.rt`, and `words.rt`, the arguments that
//!   name them.
//! - Writing: `drafts.rt`, `netlist_files.rt`, `pack_files.rt`, and `header.rt`, the header line.
//! - Playing: `packs.rt`, `script.rt`, and `scripted.rt`, a mapped source circuit with its script.
//!
//! The definitions in `specs/` have the same names. `Machine.antt` and `Host.antt` there define what the events of a script
//! do to a machine and to its host.
#![tactic(auto)]

mod drafts;
mod files;
mod graphs;
mod header;
mod labelling;
mod library_text;
mod limits;
mod mapped;
mod mapping;
mod netlist_files;
mod netlist_text;
mod pack_files;
mod packs;
mod params;
mod script;
mod scripted;
mod source;
mod stop;
mod tables;
mod words;

pub use drafts::{WritableSource, read_draft};
pub use files::read_file;
pub use graphs::{BuiltSource, read_graph};
pub use header::put_template_header;
pub use labelling::{LabelledSource, read_labelled};
pub use limits::{GRAPH_ROOM, most_nodes};
pub use mapped::{MappedSource, read_mapped};
pub use mapping::map_source;
pub use netlist_files::{write_specialised, write_template};
pub use netlist_text::{Netlist, read_netlist};
pub use pack_files::write_pack;
pub use packs::{bit_count, read_pack, script_names};
pub use params::{list_params, read_source};
pub use script::{list_events, read_script_file};
pub use scripted::{Scripted, ScriptedWords, mapped_names, read_scripted};
pub use source::{Source, latch_inits};
pub use stop::Stop;
pub use tables::SourceTables;
pub use words::{SourceWords, read_source_words, source_name, table_size};
