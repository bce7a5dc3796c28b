//! The names in a written netlist.
ghost use Rattle.std.specs.Prelude.{◌≡◌, ◌-◌, ◌/◌, ◌≤◌, ◌&&◌, [], IsTrue, nat_le, bytes_eq, slice_index_or};
ghost use Rattle.tl_piece.specs.Added.{IsAdded};
ghost use Rattle.netlist.specs.Flat.{underscores};
ghost use Rattle.lut_sim.specs.Sources.{is_regular, is_plain};
ghost use Rattle.blif_write.specs.OwnNames.{own_name, source_name, literal_name};

use aig_core::Lit;
use lut_sim::{Shape, is_plain as is_plain_literal};
use std::marker::Model;
use tl_io::Sink;
use tl_piece::Writer;
use tl_text::Name;

/// What the names depend on: the most underscores with which the name of a port begins, the inputs and the places of the
/// regular ones among them, and the numbers of the sources.
#[derive(Drop)]
pub(crate) struct Names<'a> {
    pub under: u32,
    pub inputs: &'a [Name],
    pub regular: &'a [u32],
    pub shape: Shape,
}

impl<'a> Model for Names<'a> {
    ghost use Rattle.std.specs.Prelude.{◌≡◌, ◌<◌, ℕ, [], length, map, slice_index_or};
    ghost use Rattle.list_laws.specs.Members.{In};
    ghost use Rattle.blif_write.specs.OwnNames.{Naming};

    ghost Value = { Naming };

    ghost view = { λ n. record { under = n.under; regular = map (λ (i : ℕ). slice_index_or n.inputs.now i []) n.regular.now; shape = n.shape } };

    ghost invariant = { λ n. ((i : ℕ) → In n.regular.now i → i < length n.inputs.now) × (n.shape.regular ≡ length n.regular.now) };
}

impl<'a> Names<'a> {
    /// Adds a generated name: one underscore more than any port's name begins with, a letter and a number.
    pub(crate) fn add_own<O: Sink>(&self, letter: u8, number: u64, writer: &mut Writer<'_, O>)
        ensures { IsAdded O.seen writer.old (own_name self.now letter number) writer.new }
    {
        writer.add_repeated(b'_', self.under as usize + 1);
        writer.add_byte(letter);
        writer.add_number(number);
    }

    // Whether this is the positive literal of a regular input.
    fn is_input(&self, lit: u64) -> bool
        ensures value { result ≡ (is_plain self.now.shape lit && nat_le (lit / 2) self.now.shape.regular) }
        ensures some { IsTrue result → 1 ≤ lit / 2 }
    {
        is_plain_literal(&self.shape, lit) && lit / 2 <= self.shape.regular as u64
    }

    // The name of a regular input.
    fn input(&self, n: u32) -> &[u8]
        requires some { 1 ≤ n }
        requires there { n ≤ self.now.shape.regular }
        ensures { result.now ≡ slice_index_or self.now.regular (n - 1) [] }
    {
        let place = self.regular[n as usize - 1];
        self.inputs[place as usize].bytes()
    }

    // Adds the name of a regular source.
    fn add_source<O: Sink>(&self, n: u64, writer: &mut Writer<'_, O>)
        requires { IsTrue (is_regular self.now.shape n) }
        ensures { IsAdded O.seen writer.old (source_name self.now n) writer.new }
    {
        if n <= self.shape.regular as u64 {
            writer.add_text(self.input(n as u32));
            return;
        }
        let before_latches = self.shape.regular as u64 + self.shape.params as u64;
        self.add_own(b'l', n - 1 - before_latches, writer);
    }

    /// Adds the name of a literal: that of the source for the positive literal of a regular source, otherwise that of its
    /// LUT.
    pub(crate) fn add_literal<O: Sink>(&self, lit: u64, writer: &mut Writer<'_, O>)
        ensures { IsAdded O.seen writer.old (literal_name self.now lit) writer.new }
    {
        if is_plain_literal(&self.shape, lit) {
            self.add_source(lit / 2, writer);
            return;
        }
        self.add_own(b'n', lit, writer);
    }

    /// Whether the literal of this root has the name of this output.
    pub(crate) fn is_own(&self, root: Lit, output: &Name) -> bool
        requires { underscores output.now ≤ self.now.under }
        ensures { result ≡ bytes_eq output.now (literal_name self.now root.0) }
    {
        self.is_input(root.0 as u64) && output.bytes() == self.input(root.0 / 2)
    }
}
