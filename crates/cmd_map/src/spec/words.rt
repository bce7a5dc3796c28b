//! The arguments of `spec`.
ghost use Rattle.std.specs.Prelude.{◌≡◌, map, string_bytes, IfSome};
ghost use Rattle.std.specs.Option.{option_map};
ghost use Rattle.cmd_map.specs.Spec.{spec_of, spec_seen};
ghost use Rattle.cmd_stations.specs.Source.{IsTableSize};

use cmd_stations::{SourceWords, read_source_words};
use cover_pick::Rule;

/// The source circuit, and the argument that names the output file.
#[derive(Clone, Copy)]
pub struct SpecWords<'a> {
    pub source: SourceWords<'a>,
    pub out: &'a str,
}

/// Reads the arguments `spec K NETLIST PARAMS OUT`, with the rule that chooses cuts. `None` if and only if they have another
/// form.
pub fn read_spec(rule: Rule, words: &[String]) -> Option<SpecWords<'_>>
    ensures value { option_map (λ w. spec_seen w) result ≡ spec_of rule (map string_bytes words.now) }
    ensures range { IfSome result (λ w. IsTableSize w.source.k) }
{
    match words {
        [command, k, netlist, params, out] if command.as_str() == "spec" => Some(SpecWords {
            source: read_source_words(rule, k.as_str(), netlist.as_str(), params.as_str())?,
            out: out.as_str(),
        }),
        _ => None,
    }
}
