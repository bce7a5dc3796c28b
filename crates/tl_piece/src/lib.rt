//! Writing a text to a sink in pieces of 4,096 bytes.
//!
//! A [`Writer`] collects the parts of a text in a [`WriteBuffer`] and puts the piece each time it is full. So a text of many small
//! parts, such as numbers and names, takes few calls of the sink, and no memory is allocated. After a failed put, a writer
//! puts nothing more, and [`Writer::finish`] returns the error. So adding a part returns no error.
//!
//! `specs/Added.antt` says which bytes are in the sink and which still wait, after a part was added.
#![tactic(auto)]

mod piece;
mod writer;

pub use piece::WriteBuffer;
pub use writer::Writer;
