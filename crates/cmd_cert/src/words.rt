//! The arguments of `prove` and `audit`.
ghost use Rattle.std.specs.Prelude.{◌≡◌, map, string_bytes, codes, IfSome};
ghost use Rattle.std.specs.Option.{option_map};
ghost use Rattle.cmd_stations.specs.Source.{IsTableSize};
ghost use Rattle.cmd_cert.specs.Certs.{cert_words_of, cert_seen, cert_word};

use cmd_base::File;
use cmd_stations::{SourceWords, read_source_words, source_name};
use cover_pick::Rule;

/// The source circuit, and the argument that names the certificate's file.
#[derive(Clone, Copy)]
pub struct CertWords<'a> {
    pub source: SourceWords<'a>,
    pub cert: &'a str,
}

// Reads the arguments of the command with this name. The rule limits the number of nodes. Labels are by all cuts for the rule of the
// fewest leaves, and otherwise by flow.
fn read_words<'a>(rule: Rule, name: &str, words: &'a [String]) -> Option<CertWords<'a>>
    ensures value { option_map (λ w. cert_seen w) result ≡ cert_words_of rule name.now (map string_bytes words.now) }
    ensures range { IfSome result (λ w. IsTableSize w.source.k) }
{
    match words {
        [command, k, netlist, params, cert] if command.as_str() == name => Some(CertWords {
            source: read_source_words(rule, k.as_str(), netlist.as_str(), params.as_str())?,
            cert: cert.as_str(),
        }),
        _ => None,
    }
}

/// Reads the arguments `prove K NETLIST PARAMS CERT`. `None` if and only if they have another form.
pub fn read_prove(rule: Rule, words: &[String]) -> Option<CertWords<'_>>
    ensures value { option_map (λ w. cert_seen w) result ≡ cert_words_of rule (codes "prove") (map string_bytes words.now) }
    ensures range { IfSome result (λ w. IsTableSize w.source.k) }
{
    read_words(rule, "prove", words)
}

/// Reads the arguments `audit K NETLIST PARAMS CERT`. `None` if and only if they have another form. Nothing is labelled: the rule
/// only limits the number of nodes.
pub fn read_audit(rule: Rule, words: &[String]) -> Option<CertWords<'_>>
    ensures value { option_map (λ w. cert_seen w) result ≡ cert_words_of rule (codes "audit") (map string_bytes words.now) }
    ensures range { IfSome result (λ w. IsTableSize w.source.k) }
{
    read_words(rule, "audit", words)
}

/// The argument that names a file.
pub fn cert_name<'a>(words: &CertWords<'a>, file: File) -> &'a str
    ensures { result.now ≡ cert_word (cert_seen words.now) file }
{
    match file {
        File::Cert => words.cert,
        File::Netlist | File::Params | File::Script | File::Pack => {
            source_name(&words.source, file)
        }
    }
}
