//! What a call writes besides its output.
ghost use Rattle.std.specs.Prelude.{◌≡◌, map, string_bytes};
ghost use Rattle.tlut_cli.specs.Commands.{command_of};
ghost use Rattle.tlut_cli.specs.Outputs.{written_by, outputs_seen};

use crate::command::{Subcommand, read_command};
use cover_pick::Rule;

/// What a call writes besides its output.
#[derive(Clone, Copy)]
pub enum Outputs<'a> {
    /// Nothing.
    Nothing,
    /// The file of this name.
    File(&'a str),
    /// The files of these names, one after the other.
    Files(&'a str, &'a str),
    /// This many ports: those that serve and those that are spares.
    Ports(usize),
}

/// Returns what the command given by the arguments writes, with the rule that chooses cuts and the number of ports passed in.
/// It is nothing if no command has this form.
pub fn outputs_of(rule: Rule, ports: usize, words: &[String]) -> Outputs<'_>
    ensures { outputs_seen result ≡ written_by (command_of rule ports (map string_bytes words.now)) }
{
    match read_command(rule, ports, words) {
        None => Outputs::Nothing,
        Some(command) => match command {
            Subcommand::Run(words) => Outputs::Ports(words.ports.serving + words.ports.spares),
            Subcommand::Spec(words) => Outputs::File(words.out),
            Subcommand::Map(words) => Outputs::Files(words.template, words.pack),
            Subcommand::Repack(words) => Outputs::File(words.new),
            Subcommand::Prove(words) => Outputs::File(words.cert),
            Subcommand::Graph(words) => Outputs::File(words.out),
            Subcommand::Bits(_) => Outputs::Nothing,
            Subcommand::Gen(_) => Outputs::Nothing,
            Subcommand::Audit(_) => Outputs::Nothing,
            Subcommand::Pace(_) => Outputs::Nothing,
        },
    }
}
