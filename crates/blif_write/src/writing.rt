//! The two netlists, line by line.
ghost use Rattle.std.specs.Prelude.{◌≡◌, ◌≤◌, List, ◌∷◌, [], ◌++◌, map, codes};
ghost use Rattle.std.specs.List.{flat_map};
ghost use Rattle.list_laws.specs.Members.{In};
ghost use Rattle.tl_io.specs.Sink.{IsPut};
ghost use Rattle.tl_piece.specs.Added.{IsAdded};
ghost use Rattle.netlist.specs.Flat.{underscores};
ghost use Rattle.netlist.specs.LibraryValue.{LibraryValue};
ghost use Rattle.netlist.specs.HasCleanNames.{HasCleanNames};
ghost use Rattle.netlist.specs.Flat.{IsFlat};
ghost use Rattle.netlist.specs.Sound.{IsSound};
ghost use Rattle.param_list.specs.declared.params.Param.{Param};
ghost use Rattle.blif_write.specs.OwnNames.{naming_of};
ghost use Rattle.blif_write.specs.PlainNetlist.{line_text, words_text, latch_line, cover_lines, netlist_text};
ghost use Rattle.blif_write.specs.Meaning.{HasPorts, DenotesItself, MeansTemplate, MeansSpecialised};
ghost use Rattle.blif_write.specs.Writable.{CanBeNamed, AreRootsOf};
ghost use Rattle.blif_write.specs.Netlists.{control_names, bit_names, fixed_table, tunable_table, wires, written_latches, specialised_netlist, template_netlist};

use crate::latches::add_latches;
use crate::names::Names;
use crate::tables::{add_bit_lines, add_fixed_tables, add_tunable_tables};
use crate::wires::add_wires;
use crate::words::add_word;
use cover_pick::Template;
use lut_sim::Shape;
use netlist::{Flat, OutPort};
use param_list::Params;
use tl_io::{Failed, Sink};
use tl_piece::{WriteBuffer, Writer};
use tl_text::Name;

// Adds the names of the regular inputs, each after a blank.
fn add_regular<O: Sink>(names: &Names, writer: &mut Writer<'_, O>)
    ensures { IsAdded O.seen writer.old (words_text names.now.regular) writer.new }
{
    for place in names.regular {
        add_word(&names.inputs[*place as usize], writer);
    }
}

// Adds the net of the latch controls, if there is one, after a blank.
fn add_control_net<O: Sink>(control: &Option<Name>, writer: &mut Writer<'_, O>)
    ensures { IsAdded O.seen writer.old (words_text (control_names control.now)) writer.new }
{
    match control {
        Some(name) => add_word(name, writer),
        None => {}
    }
}

// Adds the lines with the model's name, its regular inputs and its clock.
fn add_head<O: Sink>(
    names: &Names,
    model: &Name,
    control: &Option<Name>,
    writer: &mut Writer<'_, O>,
)
    ensures { IsAdded O.seen writer.old (line_text (codes ".model" ∷ model.now ∷ []) ++ line_text (codes ".inputs" ∷ (names.now.regular ++ control_names control.now))) writer.new }
{
    writer.add_text(b".model");
    add_word(model, writer);
    writer.add_text(b"\n.inputs");
    add_regular(names, writer);
    add_control_net(control, writer);
    writer.add_byte(b'\n');
}

// Adds the names of the outputs, each after a blank.
fn add_output_names<O: Sink>(outputs: &[OutPort], writer: &mut Writer<'_, O>)
    ensures { IsAdded O.seen writer.old (words_text (map (λ (o : OutPort). o.name) outputs.now)) writer.new }
{
    for output in outputs {
        add_word(&output.name, writer);
    }
}

// Adds the line of the outputs.
fn add_outputs<O: Sink>(outputs: &[OutPort], writer: &mut Writer<'_, O>)
    ensures { IsAdded O.seen writer.old (line_text (codes ".outputs" ∷ map (λ (o : OutPort). o.name) outputs.now)) writer.new }
{
    writer.add_text(b".outputs");
    add_output_names(outputs, writer);
    writer.add_byte(b'\n');
}

// What the names of a circuit depend on.
fn names_of<'a>(flat: &'a Flat, params: &Params, regular: &'a [u32]) -> Names<'a>
    requires { CanBeNamed flat.now params.now.list regular.now }
    ensures { result ≡ naming_of flat.now params.now.list }
{
    Names {
        under: flat.under,
        inputs: &flat.inputs,
        regular,
        shape: Shape::new(
            regular.len() as u32,
            params.list.len() as u32,
            flat.latches.len() as u32,
        ),
    }
}

// Adds the head of the netlist of a circuit.
fn add_flat_head<O: Sink>(names: &Names, flat: &Flat, writer: &mut Writer<'_, O>)
    ensures { IsAdded O.seen writer.old (line_text (codes ".model" ∷ flat.now.model ∷ []) ++ line_text (codes ".inputs" ∷ (names.now.regular ++ control_names flat.now.control))) writer.new }
{
    add_head(names, &flat.model, &flat.control, writer);
}

// Adds the line of the outputs of a circuit.
fn add_flat_outputs<O: Sink>(flat: &Flat, writer: &mut Writer<'_, O>)
    ensures { IsAdded O.seen writer.old (line_text (codes ".outputs" ∷ map (λ (o : OutPort). o.name) flat.now.outputs)) writer.new }
{
    add_outputs(&flat.outputs, writer);
}

// Adds the lines of a circuit's latches.
fn add_flat_latches<O: Sink>(
    names: &Names,
    flat: &Flat,
    template: &Template,
    writer: &mut Writer<'_, O>,
)
    requires made { AreRootsOf flat.now template.now }
    ensures { IsAdded O.seen writer.old (flat_map line_text (map latch_line (written_latches names.now flat.now.control 0 flat.now.latches template.now.next))) writer.new }
{
    add_latches(names, &flat.control, &flat.latches, &template.next, writer);
}

// Adds a circuit's wires.
fn add_flat_wires<O: Sink>(
    names: &Names,
    flat: &Flat,
    template: &Template,
    writer: &mut Writer<'_, O>,
)
    requires made { AreRootsOf flat.now template.now }
    requires under { (o : OutPort) → In flat.now.outputs o → underscores o.name ≤ names.now.under }
    ensures { IsAdded O.seen writer.old (flat_map line_text (flat_map cover_lines (wires names.now flat.now.outputs template.now.outputs))) writer.new }
{
    add_wires(names, &flat.outputs, &template.outputs, writer);
}

// Adds the lines that list a template's bits as inputs.
fn add_template_bits<O: Sink>(names: &Names, template: &Template, writer: &mut Writer<'_, O>)
    ensures { IsAdded O.seen writer.old (flat_map line_text (map (λ bits. codes ".inputs" ∷ bits) (map (bit_names names.now) template.now.luts))) writer.new }
{
    add_bit_lines(names, &template.luts, writer);
}

// Adds the LUTs of a template, with their bits as inputs.
fn add_template_tables<O: Sink>(names: &Names, template: &Template, writer: &mut Writer<'_, O>)
    ensures { IsAdded O.seen writer.old (flat_map line_text (flat_map cover_lines (map (tunable_table names.now) template.now.luts))) writer.new }
{
    add_tunable_tables(names, &template.luts, writer);
}

// Adds the LUTs of a template, with their bits from a configuration.
fn add_configured_tables<O: Sink>(
    names: &Names,
    config: &[bool],
    template: &Template,
    writer: &mut Writer<'_, O>,
)
    ensures { IsAdded O.seen writer.old (flat_map line_text (flat_map cover_lines (map (fixed_table names.now config.now) template.now.luts))) writer.new }
{
    add_fixed_tables(names, config, &template.luts, writer);
}

// Adds the lines of the template netlist.
fn add_template<O: Sink>(
    names: &Names,
    flat: &Flat,
    template: &Template,
    writer: &mut Writer<'_, O>,
)
    requires made { AreRootsOf flat.now template.now }
    requires under { (o : OutPort) → In flat.now.outputs o → underscores o.name ≤ names.now.under }
    ensures { (params : List Param) → names.now ≡ naming_of flat.now params → IsAdded O.seen writer.old (netlist_text (template_netlist flat.now params template.now)) writer.new }
{
    add_flat_head(names, flat, writer);
    add_template_bits(names, template, writer);
    add_flat_outputs(flat, writer);
    add_flat_latches(names, flat, template, writer);
    add_template_tables(names, template, writer);
    add_flat_wires(names, flat, template, writer);
    writer.add_text(b".end\n");
}

// Adds the lines of the specialised netlist.
fn add_specialised<O: Sink>(
    names: &Names,
    flat: &Flat,
    template: &Template,
    config: &[bool],
    writer: &mut Writer<'_, O>,
)
    requires made { AreRootsOf flat.now template.now }
    requires under { (o : OutPort) → In flat.now.outputs o → underscores o.name ≤ names.now.under }
    ensures { (params : List Param) → names.now ≡ naming_of flat.now params → IsAdded O.seen writer.old (netlist_text (specialised_netlist flat.now params template.now config.now)) writer.new }
{
    add_flat_head(names, flat, writer);
    add_flat_outputs(flat, writer);
    add_flat_latches(names, flat, template, writer);
    add_configured_tables(names, config, template, writer);
    add_flat_wires(names, flat, template, writer);
    writer.add_text(b".end\n");
}

/// Writes the netlist of the LUTs with each of their bits as an input: the source circuit's LUTs for every configuration.
///
/// The inputs are the regular ones, whose places are passed in; the net of the latch controls, if there is one; and the
/// configuration bits in the order of their addresses. Allocates no memory. Writes pieces of 4,096 bytes; the last may be
/// shorter.
///
/// By the definition of BLIF, the text denotes one model. It is sound, and its cycles are those of the LUTs under the
/// configuration on its bit inputs. Its latches start as those of the source circuit.
///
/// # Errors
/// `Failed` only if the sink's count of faults rose. A prefix of the text is then written.
#[tactic(auto, using(crate::proofs::MeaningLemmas::template_denotes))]
pub fn template<O: Sink>(
    flat: &Flat,
    params: &Params,
    regular: &[u32],
    template: &Template,
    out: &mut O,
) -> Result<(), Failed>
    requires named { CanBeNamed flat.now params.now.list regular.now }
    requires made { AreRootsOf flat.now template.now }
    ensures put { IsPut (O.seen out.old) (netlist_text (template_netlist flat.now params.now.list template.now)) (O.seen out.new) result }
    ensures denotes { DenotesItself flat.now params.now.list template.now (template_netlist flat.now params.now.list template.now) }
    ensures means { MeansTemplate flat.now params.now.list template.now }
    ensures ports { (library : LibraryValue) → IsSound library → HasCleanNames library → IsFlat library flat.now → HasPorts flat.now }
{
    let names = names_of(flat, params, regular);
    let mut piece = WriteBuffer::new();
    let mut writer = Writer::over(out, &mut piece);
    add_template(&names, flat, template, &mut writer);
    writer.finish()
}

/// Writes the netlist of the LUTs with the bits of a configuration: the source circuit for the values of the parameters to
/// which the configuration belongs.
///
/// The inputs are the regular ones, whose places are passed in, and then the net of the latch controls, if there is one.
/// Allocates no memory. Writes pieces of 4,096 bytes; the last may be shorter.
///
/// By the definition of BLIF, the text denotes one model. It is sound, and its cycles are those of the LUTs under the
/// configuration. Its latches start as those of the source circuit.
///
/// # Errors
/// `Failed` only if the sink's count of faults rose. A prefix of the text is then written.
#[tactic(auto, using(crate::proofs::MeaningLemmas::specialised_denotes))]
pub fn specialised<O: Sink>(
    flat: &Flat,
    params: &Params,
    regular: &[u32],
    template: &Template,
    config: &[bool],
    out: &mut O,
) -> Result<(), Failed>
    requires named { CanBeNamed flat.now params.now.list regular.now }
    requires made { AreRootsOf flat.now template.now }
    ensures put { IsPut (O.seen out.old) (netlist_text (specialised_netlist flat.now params.now.list template.now config.now)) (O.seen out.new) result }
    ensures denotes { DenotesItself flat.now params.now.list template.now (specialised_netlist flat.now params.now.list template.now config.now) }
    ensures means { MeansSpecialised flat.now params.now.list template.now config.now }
    ensures ports { (library : LibraryValue) → IsSound library → HasCleanNames library → IsFlat library flat.now → HasPorts flat.now }
{
    let names = names_of(flat, params, regular);
    let mut piece = WriteBuffer::new();
    let mut writer = Writer::over(out, &mut piece);
    add_specialised(&names, flat, template, config, &mut writer);
    writer.finish()
}
