//! The arguments of `run`.
ghost use Rattle.std.specs.Prelude.{◌≡◌, ◌≤◌, ◌+◌, map, string_bytes, IfSome, Some};
ghost use Rattle.std.specs.Option.{option_map};
ghost use Rattle.cmd_stations.specs.Script.{scripted_seen};
ghost use Rattle.cmd_run.specs.Run.Job.{counts_of, run_words, run_of, run_seen, scripted_of, IsInRange, run_word};

use cmd_base::File;
use cmd_stations::{ScriptedWords, SourceWords, source_name, table_size};
use cover_pick::Rule;
use run_text::Forms;
use tl_text::decimal;

/// The numbers of ports that serve, and of ports that are spares.
#[derive(Clone, Copy)]
pub struct PortCounts {
    pub serving: usize,
    pub spares: usize,
}

/// The source circuit, the argument that names the script, and the ports.
#[derive(Clone, Copy)]
pub struct RunWords<'a> {
    pub source: SourceWords<'a>,
    pub script: &'a str,
    pub ports: PortCounts,
}

// The numbers of serving and spare ports, if together they aren't more than `ports`.
fn counts(ports: usize, serving: Option<u64>, spares: Option<u64>) -> Option<PortCounts>
    ensures value { result ≡ counts_of ports serving spares }
    ensures within { IfSome result (λ c. c.serving + c.spares ≤ ports) }
{
    let serving = serving?;
    let spares = spares?;
    let handed_in = ports as u64;
    if handed_in < serving || handed_in - serving < spares {
        return None;
    }
    Some(PortCounts {
        serving: serving as usize,
        spares: spares as usize,
    })
}

// The arguments of `run`, from their parts.
fn assemble<'a>(
    rule: Rule,
    netlist: &'a str,
    params: &'a str,
    script: &'a str,
    k: Option<u8>,
    ports: Option<PortCounts>,
) -> Option<RunWords<'a>>
    ensures value { option_map (λ w. run_seen w) result ≡ run_words rule netlist.now params.now script.now k ports }
    ensures ports { IfSome result (λ w. ports ≡ Some w.ports) }
    ensures size { IfSome result (λ w. k ≡ Some w.source.k) }
{
    match (k, ports) {
        (Some(k), Some(ports)) => Some(RunWords {
            source: SourceWords {
                rule,
                k,
                netlist,
                params,
            },
            script,
            ports,
        }),
        _ => None,
    }
}

/// Reads the arguments `run K NETLIST PARAMS SCRIPT PORTS SPARES`, with the rule that chooses cuts. `None` if and only if
/// they have another form.
pub fn read_run(rule: Rule, ports: usize, words: &[String]) -> Option<RunWords<'_>>
    ensures value { option_map (λ w. run_seen w) result ≡ run_of rule ports (map string_bytes words.now) }
    ensures range { IfSome result (IsInRange ports) }
{
    match words {
        [command, k, netlist, params, script, serving, spares] if command.as_str() == "run" => {
            let counts = counts(
                ports,
                decimal(serving.as_bytes()),
                decimal(spares.as_bytes()),
            );
            assemble(
                rule,
                netlist.as_str(),
                params.as_str(),
                script.as_str(),
                table_size(k.as_str()),
                counts,
            )
        }
        _ => None,
    }
}

/// The source circuit and its script.
pub fn scripted<'a>(words: &RunWords<'a>) -> ScriptedWords<'a>
    ensures { scripted_seen result ≡ scripted_of (run_seen words.now) }
{
    ScriptedWords {
        source: words.source,
        script: words.script,
        forms: Forms::Run,
    }
}

/// The argument that names a file.
pub fn file_name<'a>(words: &RunWords<'a>, file: File) -> &'a str
    ensures { result.now ≡ run_word (run_seen words.now) file }
{
    match file {
        File::Script => words.script,
        File::Netlist | File::Params | File::Pack | File::Cert => {
            source_name(&words.source, file)
        },
    }
}
