//! The lines of a certificate's text.
ghost use Rattle.std.specs.Prelude.{◌≡◌, ◌+◌, ◌<◌, [], ◌∷◌, ◌++◌, length, map, true, false, Some, IfOk, IfErr, MatchResult};
ghost use Rattle.tl_fault.specs.OrMemory.{OrMemory};
ghost use Rattle.tl_text.specs.LineValue.{IsLineIn, AreLinesIn, words_line};
ghost use Rattle.cert_check.specs.CertText.{says_depth, says_path, path_said, steps_said, AreSaid, AreLinesOf, said_of, fits_at, IsMalformed, saying_value, IsMisfit};
ghost use Rattle.cert_check.specs.Refusals.{refusal_of};
ghost use Rattle.cert_check.specs.declared.cert_err.CertErr.TheVariants.{Malformed};

use crate::cert_err::CertErr;
use crate::certificate::{Certificate, NodePath, Step};
use crate::saying::{CertSaying, read_saying};
use std::alloc::Global;
use tl_text::Line;

// Adds a path to the last step.
fn add_path(steps: &mut Vec<Step>, path: NodePath) -> Result<(), CertErr>
    ensures { MatchResult result
        (λ _. (steps_said steps.new.items ≡ steps_said steps.old.items ++ path_said path ∷ []) × (0 < length steps.old.items))
        (OrMemory refusal_of (λ e. (steps.old.items ≡ []) × (e ≡ Malformed path.line))) }
{
    let Some(mut step) = steps.pop() else {
        return Err(CertErr::Malformed(path.line));
    };
    step.paths.push(path)?;
    steps.push(step)?;
    Ok(())
}

// Adds the content of a line to the steps of the lines before.
fn add_saying(
    alloc: Global,
    steps: &mut Vec<Step>,
    line: u32,
    saying: CertSaying,
) -> Result<(), CertErr>
    ensures { MatchResult result
        (λ _. (steps_said steps.new.items ≡ steps_said steps.old.items ++ record { number = line; saying = saying_value saying } ∷ [])
        × (fits_at (1 + length (steps_said steps.old.items)) (Some (saying_value saying)) ≡ true))
        (OrMemory refusal_of (λ e. (fits_at (1 + length (steps_said steps.old.items)) (Some (saying_value saying)) ≡ false) × (e ≡ Malformed line))) }
{
    match saying {
        CertSaying::Depth(_) => Err(CertErr::Malformed(line)),
        CertSaying::Claim(node, claim) => {
            steps.push(Step {
                line,
                node,
                claim,
                paths: Vec::new(alloc),
            })?;
            Ok(())
        }
        CertSaying::Path(nodes) => add_path(steps, NodePath { line, nodes }),
    }
}

// The steps of the lines after the first.
fn read_steps(alloc: Global, text: &[u8], lines: &[Line]) -> Result<Vec<Step>, CertErr>
    requires { AreLinesIn text.now lines.now }
    ensures steps { IfOk result (λ steps. AreSaid (map (words_line text.now) lines.now) (steps_said steps.items)) }
    ensures fault { IfErr result (OrMemory refusal_of (IsMisfit 1 (map (words_line text.now) lines.now))) }
{
    let mut steps = Vec::new(alloc);
    for line in lines {
        let saying = read_saying(alloc, text, line)?;
        add_saying(alloc, &mut steps, line.number, saying)?;
    }
    Ok(steps)
}

// The depth on the first line.
fn read_depth(alloc: Global, text: &[u8], line: &Line) -> Result<u32, CertErr>
    requires { IsLineIn text.now line.now }
    ensures { MatchResult result
        (λ depth. said_of (words_line text.now line.now).words ≡ Some (says_depth depth))
        (OrMemory refusal_of (λ e. (fits_at 0 (said_of (words_line text.now line.now).words) ≡ false) × (e ≡ Malformed line.now.number))) }
{
    match read_saying(alloc, text, line)? {
        CertSaying::Depth(depth) => Ok(depth),
        _ => Err(CertErr::Malformed(line.number)),
    }
}

/// The certificate on the lines of a text. Time and memory are linear in the text.
///
/// # Errors
/// C1 at the first line that has an invalid form or is in the wrong place, and at line 1 if there is no line; `Memory` if
/// memory runs out.
pub(crate) fn read_lines(alloc: Global, text: &[u8], lines: &[Line]) -> Result<Certificate, CertErr>
    requires { AreLinesIn text.now lines.now }
    ensures certificate { IfOk result (AreLinesOf (map (words_line text.now) lines.now)) }
    ensures fault { IfErr result (OrMemory refusal_of (IsMalformed (map (words_line text.now) lines.now))) }
{
    if lines.is_empty() {
        return Err(CertErr::Malformed(1));
    }
    let depth = read_depth(alloc, text, &lines[0])?;
    let steps = read_steps(alloc, text, &lines[1..])?;
    Ok(Certificate { depth, steps })
}
