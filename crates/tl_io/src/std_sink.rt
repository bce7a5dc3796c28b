//! A sink over a `std::io::Write`.
ghost use Rattle.std.specs.Prelude.{◌≡◌, ◌-◌, ◌^◌, ◌≤◌, OnOk};
ghost use Rattle.std.specs.Io.KnownBytes.{Appends};
ghost use Rattle.std.proofs.Common.{rules};
ghost use Rattle.tl_io.specs.Sink.{IsPut};
ghost use Rattle.tl_io.specs.StdSinkValue.{StdSinkValue, sink_of_std};

use crate::inner_write::write_whole;
use crate::{Failed, Sink};
use std::io::Write;
use std::marker::Model;

/// A sink over a `std::io::Write`. As a sink it does not tell its bytes. If the writer tells its content, a `put` that
/// returns `Ok` appended the piece to it.
#[derive(Drop)]
pub struct StdSink<W: Write + Drop> {
    writer: W,
    faults: u64,
}

impl<W: Write + Drop> Model for StdSink<W> {
    ghost Value = { StdSinkValue };

    ghost view = { λ sink. record { contents = W.contents sink.writer; faults = sink.faults } };
}

impl<W: Write + Drop> StdSink<W> {
    /// Creates a sink over this writer, with no faults so far.
    pub fn make(writer: W) -> StdSink<W>
        ensures { result ≡ record { contents = W.contents writer; faults = 0 } }
    {
        StdSink { writer, faults: 0 }
    }
}

impl<W: Write + Drop> Sink for StdSink<W> {
    ghost seen = { sink_of_std };

    fn put(&mut self, piece: &[u8]) -> Result<(), Failed>
        ensures put { IsPut (sink_of_std self.old) piece.now (sink_of_std self.new) result }
        ensures written { OnOk result (Appends self.old.contents self.new.contents piece.now) }
    {
        match write_whole(&mut self.writer, piece) {
            Ok(()) => Ok(()),
            Err(Failed) => {
                self.faults = self.faults.saturating_add(1);
                Err(Failed)
            }
        }
    }

    ghost faults_end = { λ sink. Prim.search rules };
}
