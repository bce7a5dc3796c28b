//! The top call.
ghost use Rattle.std.specs.Prelude.{◌≡◌, ◌↔◌, ◌⊎◌, length, None, Some, map, string_bytes};
ghost use Rattle.cover_pick.specs.declared.rule.Rule.TheVariants.{FewestLeaves};
ghost use Rattle.tlut_cli.specs.Commands.{command_of, command_seen, HasRange};
ghost use Rattle.tlut_cli.specs.CommandEnds.{HasEnded, HasWalkLaws};
ghost use Rattle.tlut_cli.specs.Call.{world_of, IsEnd, fault_file, word_at, fault_word, IsQuiet, WritesFiles};
ghost use Rattle.tlut_cli.specs.Meaning.{CallMeans, CallEnds};

use crate::command::{Subcommand, file_name, read_command, report};
use cmd_base::{File, Outcome, Status};
use cmd_cert::{audit_job, prove_job};
use cmd_graph::graph_job;
use cmd_map::{map_job, spec_job};
use cmd_pace::pace_job;
use cmd_pack::{bits_job, repack_job};
use cmd_run::{gen_job, run_job};
use cover_pick::Rule;
use std::alloc::Global;
use tl_io::{ConfigPort, Shelf, Sink};

// The end of a call, and the argument that its fault line names.
#[derive(Drop)]
struct Ended<'a> {
    outcome: Outcome,
    name: &'a str,
}

// Runs a command.
fn run_command<S: Shelf, O: Sink, P: ConfigPort>(
    alloc: Global,
    command: &Subcommand,
    shelf: &mut S,
    out: &mut O,
    ports: &mut Vec<P>,
) -> Outcome
    requires { HasRange (length ports.old.items) command.now }
    ensures { HasEnded (command_seen command.now)
        (world_of (S.seen shelf.old) (O.seen out.old) (map P.port_seen ports.old.items))
        (world_of (S.seen shelf.new) (O.seen out.new) (map P.port_seen ports.new.items)) result }
{
    match command {
        Subcommand::Run(words) => run_job(alloc, words, shelf, out, ports),
        Subcommand::Spec(words) => spec_job(alloc, words, shelf, out),
        Subcommand::Map(words) => map_job(alloc, words, shelf, out),
        Subcommand::Bits(words) => bits_job::<S, O, P>(alloc, words, shelf, out),
        Subcommand::Gen(words) => gen_job(alloc, words, out),
        Subcommand::Repack(words) => repack_job(alloc, words, shelf, out),
        Subcommand::Prove(words) => prove_job(alloc, words, shelf, out),
        Subcommand::Audit(words) => audit_job(alloc, words, shelf, out),
        Subcommand::Graph(words) => graph_job(alloc, words, shelf, out),
        Subcommand::Pace(words) => pace_job(alloc, words, shelf, out),
    }
}

// The file that a fault line names.
fn told_file(outcome: &Outcome) -> Option<File>
    ensures { result ≡ fault_file outcome.now }
{
    match outcome {
        Outcome::TooLong(file) => Some(*file),
        Outcome::Refused(file, _) => Some(*file),
        Outcome::ReadFault(file) => Some(*file),
        Outcome::Done => None,
        Outcome::Usage => None,
        Outcome::WriteFault => None,
        Outcome::PortFault => None,
        Outcome::Memory => None,
    }
}

// The argument that a fault line names.
fn fault_name<'a>(command: &Subcommand<'a>, outcome: &Outcome) -> &'a str
    ensures { result.now ≡ word_at (fault_file outcome.now) (Some (command_seen command.now)) }
{
    match told_file(outcome) {
        None => "",
        Some(file) => file_name(command, file),
    }
}

// Runs the command given by some arguments.
fn run_words<'a, S: Shelf, O: Sink, P: ConfigPort>(
    alloc: Global,
    rule: Rule,
    words: &'a [String],
    shelf: &mut S,
    out: &mut O,
    ports: &mut Vec<P>,
) -> Ended<'a>
    ensures end { IsEnd rule (map string_bytes words.now)
        (world_of (S.seen shelf.old) (O.seen out.old) (map P.port_seen ports.old.items))
        (world_of (S.seen shelf.new) (O.seen out.new) (map P.port_seen ports.new.items)) result.outcome }
    ensures name { result.name.now ≡ fault_word rule (length ports.old.items) (map string_bytes words.now) result.outcome }
    ensures files { ((S.seen shelf.new).files ≡ (S.seen shelf.old).files) ⊎ WritesFiles rule (length ports.old.items) (map string_bytes words.now) }
    ensures laws { HasWalkLaws rule (length ports.old.items) (map string_bytes words.now) }
{
    match read_command(rule, ports.len(), words) {
        None => Ended {
            outcome: Outcome::Usage,
            name: "",
        },
        Some(command) => {
            let outcome = run_command(alloc, &command, shelf, out, ports);
            let name = fault_name(&command, &outcome);
            Ended { outcome, name }
        }
    }
}

/// Runs the command given by the arguments, over the files of a shelf and the configuration ports that are passed in.
/// Commands that map choose their cuts by `rule`.
///
/// - `run K NETLIST PARAMS SCRIPT PORTS SPARES` maps a netlist to LUTs of at most K inputs with the least depth, loads their
///   configuration into the first PORTS ports, and plays the events of a script: changes of parameters, clock cycles, upset
///   bits, scrubs, and images of the configuration. The next SPARES ports replace any that fail.
/// - `spec K NETLIST PARAMS OUT` maps a netlist, and writes its LUTs for the listed values of the parameters.
/// - `map K NETLIST PARAMS TEMPLATE PACK` writes the LUTs with each of their bits as an input, and these bits as functions of
///   the parameters.
/// - `bits PACK SCRIPT` plays a host script on a pack alone.
/// - `gen N SEED` maps a generated multiplier, and changes its coefficient a hundred times.
/// - `repack OLD NEW` writes a pack in version 2.
/// - `prove K NETLIST PARAMS CERT` writes a certificate that no cover is less deep than the mapper's.
/// - `audit K NETLIST PARAMS CERT` checks a certificate against the netlist.
/// - `graph NETLIST PARAMS OUT` writes the netlist's graph in AIGER's ASCII format.
/// - `pace K NETLIST PARAMS SCRIPT RATE` plays a script of asks and ticks. The configuration port takes RATE bits in each
///   tick, and the circuit waits while the port is behind.
///
/// A netlist is in AIGER's ASCII format if it begins with `aag` and a blank, and otherwise in BLIF.
///
/// The status says how the call ended. For every status except `Done` one line is written to `err`; if `err` fails, the
/// status stays the same. `Memory` is the only status without a stated cause. It is returned only before the first byte of
/// `out` and before a file is opened for writing.
pub fn tlut_by<S: Shelf, O: Sink, E: Sink>(
    alloc: Global,
    rule: Rule,
    words: &[String],
    shelf: &mut S,
    out: &mut O,
    err: &mut E,
    ports: &mut Vec<Box<dyn ConfigPort>>,
) -> Status
    ensures usage { result ≡ Status.Usage ↔ command_of rule (length ports.old.items) (map string_bytes words.now) ≡ None }

    // What the status means, clause by clause: the record is in `specs/Meaning.antt`.
    ensures meaning { CallMeans (λ p. port_seen p) rule words.now (S.seen shelf.old) (S.seen shelf.new) (O.seen out.old) (O.seen out.new) ports.old ports.new result }

    // What is unchanged.
    ensures quiet { IsQuiet result → (O.seen out.new).bytes ≡ (O.seen out.old).bytes }
    ensures ports { IsQuiet result → map (λ port. port_seen port) ports.new.items ≡ map (λ port. port_seen port) ports.old.items }
    ensures files { IsQuiet result → (S.seen shelf.new).files ≡ (S.seen shelf.old).files }
    ensures no_files { ((S.seen shelf.new).files ≡ (S.seen shelf.old).files) ⊎ WritesFiles rule (length ports.old.items) (map string_bytes words.now) }

    // The outcome, its cause, and the fault line.
    ensures told { CallEnds (λ p. port_seen p) rule words.now (S.seen shelf.old) (S.seen shelf.new) (O.seen out.old) (O.seen out.new) ports.old ports.new
        (E.seen err.old) (E.seen err.new) result }
{
    let ended = run_words(alloc, rule, words, shelf, out, ports);
    report(err, ended.name.as_bytes(), &ended.outcome);
    ended.outcome.status()
}

/// Runs the command given by the arguments with the rule of the fewest leaves: `tlut_by` with `FewestLeaves`.
pub fn tlut<S: Shelf, O: Sink, E: Sink>(
    alloc: Global,
    words: &[String],
    shelf: &mut S,
    out: &mut O,
    err: &mut E,
    ports: &mut Vec<Box<dyn ConfigPort>>,
) -> Status
    ensures usage { result ≡ Status.Usage ↔ command_of FewestLeaves (length ports.old.items) (map string_bytes words.now) ≡ None }

    // What the status means, clause by clause: the record is in `specs/Meaning.antt`.
    ensures meaning { CallMeans (λ p. port_seen p) FewestLeaves words.now (S.seen shelf.old) (S.seen shelf.new) (O.seen out.old) (O.seen out.new) ports.old ports.new result }

    // What is unchanged.
    ensures quiet { IsQuiet result → (O.seen out.new).bytes ≡ (O.seen out.old).bytes }
    ensures ports { IsQuiet result → map (λ port. port_seen port) ports.new.items ≡ map (λ port. port_seen port) ports.old.items }
    ensures files { IsQuiet result → (S.seen shelf.new).files ≡ (S.seen shelf.old).files }
    ensures no_files { ((S.seen shelf.new).files ≡ (S.seen shelf.old).files) ⊎ WritesFiles FewestLeaves (length ports.old.items) (map string_bytes words.now) }

    // The outcome, its cause, and the fault line.
    ensures told { CallEnds (λ p. port_seen p) FewestLeaves words.now (S.seen shelf.old) (S.seen shelf.new) (O.seen out.old) (O.seen out.new) ports.old ports.new
        (E.seen err.old) (E.seen err.new) result }
{
    tlut_by(alloc, Rule::FewestLeaves, words, shelf, out, err, ports)
}
