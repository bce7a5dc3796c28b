//! The outputs that are connected to their roots by a buffer.
ghost use Rattle.std.specs.Prelude.{◌≡◌, ◌≤◌, [], ◌∷◌, length, bytes_eq, codes};
ghost use Rattle.std.specs.List.{flat_map};
ghost use Rattle.list_laws.specs.Members.{In};
ghost use Rattle.tl_piece.specs.Added.{IsAdded};
ghost use Rattle.netlist.specs.Flat.{underscores};
ghost use Rattle.blif_write.specs.OwnNames.{literal_name};
ghost use Rattle.blif_write.specs.PlainNetlist.{line_text, cover_lines};
ghost use Rattle.blif_write.specs.Netlists.{wire, wires};

use crate::names::Names;
use crate::words::add_word;
use aig_core::Lit;
use netlist::OutPort;
use tl_io::Sink;
use tl_piece::Writer;
use tl_text::Name;

// Adds a cover that gives an output the value of its root.
fn add_cover<O: Sink>(names: &Names, root: Lit, output: &Name, writer: &mut Writer<'_, O>)
    ensures { IsAdded O.seen writer.old (flat_map line_text ((codes ".names" ∷ literal_name names.now root.0 ∷ output.now ∷ []) ∷ (codes "1" ∷ codes "1" ∷ []) ∷ [])) writer.new }
{
    writer.add_text(b".names ");
    names.add_literal(root.0 as u64, writer);
    add_word(output, writer);
    writer.add_text(b"\n1 1\n");
}

// Adds this cover if the output's name isn't that of its root.
fn add_wire<O: Sink>(names: &Names, root: Lit, output: &Name, writer: &mut Writer<'_, O>)
    requires under { underscores output.now ≤ names.now.under }
    ensures { IsAdded O.seen writer.old (flat_map line_text (flat_map cover_lines (wire (literal_name names.now root.0) output.now))) writer.new }
{
    if !names.is_own(root, output) {
        add_cover(names, root, output, writer);
    }
}

/// Adds the covers of the outputs whose names aren't those of their roots.
pub(crate) fn add_wires<O: Sink>(
    names: &Names,
    outputs: &[OutPort],
    roots: &[Lit],
    writer: &mut Writer<'_, O>,
)
    requires count { length roots.now ≡ length outputs.now }
    requires under { (o : OutPort) → In outputs.now o → underscores o.name ≤ names.now.under }
    ensures { IsAdded O.seen writer.old (flat_map line_text (flat_map cover_lines (wires names.now outputs.now roots.now))) writer.new }
{
    for place in 0..outputs.len() {
        add_wire(names, roots[place], &outputs[place].name, writer);
    }
}
