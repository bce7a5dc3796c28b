//! The arguments of `graph`.
ghost use Rattle.std.specs.Prelude.{◌≡◌, map, string_bytes};
ghost use Rattle.std.specs.Option.{option_map};
ghost use Rattle.cmd_graph.specs.Graph.{graph_words_of, graph_seen};

use cmd_stations::SourceWords;
use cover_pick::Rule;

/// The source circuit, and the argument that names the output file.
#[derive(Clone, Copy)]
pub struct GraphWords<'a> {
    pub source: SourceWords<'a>,
    pub out: &'a str,
}

// A placeholder for the number of LUT inputs, since no LUTs are computed.
const NO_TABLES: u8 = 0;

/// Reads the arguments `graph NETLIST PARAMS OUT`. The rule limits the number of nodes. `None` if and only if the arguments have
/// another form.
pub fn read_graph_words(rule: Rule, words: &[String]) -> Option<GraphWords<'_>>
    ensures { option_map (λ w. graph_seen w) result ≡ graph_words_of rule (map string_bytes words.now) }
{
    match words {
        [command, netlist, params, out] if command.as_str() == "graph" => Some(GraphWords {
            source: SourceWords {
                rule,
                k: NO_TABLES,
                netlist: netlist.as_str(),
                params: params.as_str(),
            },
            out: out.as_str(),
        }),
        _ => None,
    }
}
