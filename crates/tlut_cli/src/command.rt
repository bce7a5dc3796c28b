//! Parsing the command line.
ghost use Rattle.std.specs.Prelude.{◌≡◌, ℕ, map, string_bytes, IfSome};
ghost use Rattle.std.specs.Option.{option_map};
ghost use Rattle.cmd_base.specs.FaultLine.{Reports};
ghost use Rattle.tlut_cli.specs.Commands.{command_of, other_commands, later_commands, cert_commands, walk_of, command_seen, HasRange, line_of};

use cmd_base::{File, Outcome};
use cmd_cert::{CertWords, cert_name, read_audit, read_prove};
use cmd_graph::{GraphWords, read_graph_words};
use cmd_map::{MapWords, SpecWords, read_map, read_spec};
use cmd_pace::{PaceWords, pace_name, read_pace_words};
use cmd_pack::{BitsWords, RepackWords, bits_name, read_bits, read_repack};
use cmd_run::{GenWords, RunWords, read_gen, read_run, run_name};
use cmd_stations::source_name;
use cover_pick::Rule;
use tl_io::Sink;

/// A command with its arguments.
#[derive(Clone, Copy)]
pub enum Subcommand<'a> {
    Run(RunWords<'a>),
    Spec(SpecWords<'a>),
    Map(MapWords<'a>),
    Bits(BitsWords<'a>),
    Gen(GenWords),
    Repack(RepackWords<'a>),
    Prove(CertWords<'a>),
    Audit(CertWords<'a>),
    Graph(GraphWords<'a>),
    Pace(PaceWords<'a>),
}

// Reads one of the commands about certificates.
fn read_cert_command(rule: Rule, words: &[String]) -> Option<Subcommand<'_>>
    ensures value { option_map (λ c. command_seen c) result ≡ cert_commands rule (map string_bytes words.now) }
    ensures range { (ports : ℕ) → IfSome result (HasRange ports) }
{
    if let Some(words) = read_prove(rule, words) {
        return Some(Subcommand::Prove(words));
    }
    match read_audit(rule, words) {
        Some(words) => Some(Subcommand::Audit(words)),
        None => None,
    }
}

// Reads one of the later commands.
fn read_later(rule: Rule, words: &[String]) -> Option<Subcommand<'_>>
    ensures value { option_map (λ c. command_seen c) result ≡ later_commands rule (map string_bytes words.now) }
    ensures range { (ports : ℕ) → IfSome result (HasRange ports) }
{
    if let Some(command) = read_cert_command(rule, words) {
        return Some(command);
    }
    if let Some(words) = read_graph_words(rule, words) {
        return Some(Subcommand::Graph(words));
    }
    match read_pace_words(rule, words) {
        Some(words) => Some(Subcommand::Pace(words)),
        None => None,
    }
}

// Reads any command other than `run`.
fn read_other(rule: Rule, words: &[String]) -> Option<Subcommand<'_>>
    ensures value { option_map (λ c. command_seen c) result ≡ other_commands rule (map string_bytes words.now) }
    ensures range { (ports : ℕ) → IfSome result (HasRange ports) }
{
    if let Some(words) = read_spec(rule, words) {
        return Some(Subcommand::Spec(words));
    }
    if let Some(words) = read_map(rule, words) {
        return Some(Subcommand::Map(words));
    }
    if let Some(words) = read_bits(words) {
        return Some(Subcommand::Bits(words));
    }
    if let Some(words) = read_gen(rule, words) {
        return Some(Subcommand::Gen(words));
    }
    match read_repack(words) {
        Some(words) => Some(Subcommand::Repack(words)),
        None => read_later(rule, words),
    }
}

/// Reads the command given by the arguments, with the rule that chooses cuts and the number of ports passed in. `None` if and
/// only if no command has this form.
pub fn read_command(rule: Rule, ports: usize, words: &[String]) -> Option<Subcommand<'_>>
    ensures value { option_map (λ c. command_seen c) result ≡ command_of rule ports (map string_bytes words.now) }
    ensures range { IfSome result (HasRange ports) }
{
    match read_run(rule, ports, words) {
        Some(words) => Some(Subcommand::Run(words)),
        None => read_other(rule, words),
    }
}

/// The argument that names a file of a command; `gen` for a generated case.
pub fn file_name<'a>(command: &Subcommand<'a>, file: File) -> &'a str
    ensures { result.now ≡ (walk_of (command_seen command.now)).reading.word file }
{
    match command {
        Subcommand::Run(words) => run_name(words, file),
        Subcommand::Spec(words) => source_name(&words.source, file),
        Subcommand::Map(words) => source_name(&words.source, file),
        Subcommand::Bits(words) => bits_name(words, file),
        Subcommand::Gen(_) => "gen",
        Subcommand::Repack(words) => words.old,
        Subcommand::Prove(words) => source_name(&words.source, file),
        Subcommand::Audit(words) => cert_name(words, file),
        Subcommand::Graph(words) => source_name(&words.source, file),
        Subcommand::Pace(words) => pace_name(words, file),
    }
}

/// Writes the fault line of an outcome. For a usage error it lists the forms of all commands. If `err` fails, nothing else
/// changes.
pub fn report<E: Sink>(err: &mut E, name: &[u8], outcome: &Outcome)
    ensures reports { Reports (E.seen err.old) (E.seen err.new) (line_of name.now outcome.now) }
{
    cmd_base::report(
        err,
        &[
            b"tlut: usage: ",
            b"run K NETLIST PARAMS SCRIPT PORTS SPARES",
            b", spec K NETLIST PARAMS OUT",
            b", map K NETLIST PARAMS TEMPLATE PACK",
            b", bits PACK SCRIPT",
            b", gen N SEED",
            b", repack OLD NEW",
            b", prove K NETLIST PARAMS CERT",
            b", audit K NETLIST PARAMS CERT",
            b", graph NETLIST PARAMS OUT",
            b", pace K NETLIST PARAMS SCRIPT RATE",
            b"\n",
        ],
        name,
        outcome,
    );
}
