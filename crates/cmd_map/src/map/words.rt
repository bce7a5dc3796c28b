//! The arguments of `map`.
ghost use Rattle.std.specs.Prelude.{◌≡◌, map, string_bytes, IfSome};
ghost use Rattle.std.specs.Option.{option_map};
ghost use Rattle.cmd_map.specs.Map.{map_of, map_seen};
ghost use Rattle.cmd_stations.specs.Source.{IsTableSize};

use cmd_stations::{SourceWords, read_source_words};
use cover_pick::Rule;

/// The source circuit, and the arguments that name the output files.
#[derive(Clone, Copy)]
pub struct MapWords<'a> {
    pub source: SourceWords<'a>,
    pub template: &'a str,
    pub pack: &'a str,
}

/// Reads the arguments `map K NETLIST PARAMS TEMPLATE PACK`, the last two of which differ, with the rule that chooses cuts.
/// `None` if and only if they have another form.
pub fn read_map(rule: Rule, words: &[String]) -> Option<MapWords<'_>>
    ensures value { option_map (λ w. map_seen w) result ≡ map_of rule (map string_bytes words.now) }
    ensures range { IfSome result (λ w. IsTableSize w.source.k) }
{
    match words {
        [command, k, netlist, params, template, pack]
            if command.as_str() == "map" && template.as_str() != pack.as_str() => {
            Some(MapWords {
                source: read_source_words(rule, k.as_str(), netlist.as_str(), params.as_str())?,
                template: template.as_str(),
                pack: pack.as_str(),
            })
        }
        _ => None,
    }
}
