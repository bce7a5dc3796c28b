//! Plays all rows of some texts, and reports the results.
use crate::heading::{Text, WorkedRow};
use crate::play::Program;
use crate::row::play_row;
use crate::stop::PlayStop;
use std::alloc::Global;
use std::rt::Env;
use std::{env, io, str};
use tl_io::{Shelf, slurp};

// The most bytes of a text.
const MOST_BYTES: u64 = 1_000_000;

/// The results of all rows.
#[derive(Drop)]
struct Report {
    /// The lines to print.
    lines: String,
    played: u64,
    told_apart: u64,
    differ: u64,
}

impl Report {
    // Adds the result of a row: its differences.
    fn add(&mut self, name: &str, row: &WorkedRow, differences: &str) -> Result<(), PlayStop> {
        self.played = self.played.wrapping_add(1);
        let number = row.number;
        let title = row.title;
        if row.is_spoilt && !differences.is_empty() {
            self.told_apart = self.told_apart.wrapping_add(1);
            write!(
                self.lines,
                "{name}:{number}: {title}: is told apart\n{differences}"
            )?;
        } else if row.is_spoilt {
            self.differ = self.differ.wrapping_add(1);
            write!(self.lines, "{name}:{number}: {title}: IS NOT TOLD APART\n")?;
        } else if !differences.is_empty() {
            self.differ = self.differ.wrapping_add(1);
            write!(
                self.lines,
                "{name}:{number}: {title}: DIFFERS\n{differences}"
            )?;
        }
        Ok(())
    }

    // Plays the rows of a text.
    fn add_text<P: Program>(
        &mut self,
        alloc: Global,
        program: &P,
        name: &str,
        text: &str,
    ) -> Result<(), PlayStop> {
        let text = Text::read(alloc, text)?;
        for row in &text.rows {
            let differences = play_row(alloc, program, &text.common, row)?;
            self.add(name, row, differences.as_str())?;
        }
        Ok(())
    }
}

// Plays the rows of a file.
fn add_file<S: Shelf, P: Program>(
    alloc: Global,
    shelf: &mut S,
    program: &P,
    report: &mut Report,
    name: &str,
) -> Result<(), PlayStop> {
    let Ok(bytes) = slurp(alloc, shelf, name, MOST_BYTES) else {
        return Err(PlayStop::Unread(0, "the text can't be read"));
    };
    match str::from_utf8(bytes.as_slice()) {
        Ok(text) => report.add_text(alloc, program, name, text),
        Err(_) => Err(PlayStop::Unread(0, "the text isn't UTF-8")),
    }
}

// The line with the counts of all rows.
fn add_total(report: &mut Report) -> Result<(), PlayStop> {
    let Report {
        played,
        told_apart,
        differ,
        ..
    } = *report;
    if differ == 0 {
        write!(
            report.lines,
            "{played} rows were played: {told_apart} spoilt ones were told apart, and the others left what they must\n"
        )?;
    } else {
        write!(
            report.lines,
            "{played} rows were played: {differ} OTHERWISE THAN THEY MUST\n"
        )?;
    }
    Ok(())
}

// Plays the rows of the texts that the program's arguments name.
fn played<R: Env + AllocGlobal, S: Shelf, P: Program>(
    rt: &R,
    shelf: &mut S,
    program: &P,
) -> io::Result<Report> {
    let mut report = Report {
        lines: String::new(rt.alloc()),
        played: 0,
        told_apart: 0,
        differ: 0,
    };
    for name in env::args(rt)?.skip(1) {
        match add_file(rt.alloc(), shelf, program, &mut report, name.as_str()) {
            Ok(()) => {}
            Err(PlayStop::Unread(line, why)) => {
                report.differ = report.differ.wrapping_add(1);
                write!(report.lines, "{name}:{line}: {why}\n")?;
            }
            Err(PlayStop::Memory) => return Err(io::Error::from(io::ErrorKind::OutOfMemory)),
        }
    }
    Ok(report)
}

/// Plays the rows of the texts that the program's arguments name. The report has a line and the differences for each row
/// that fails or can't be read, and a last line with the counts.
///
/// # Errors
///
/// If the arguments can't be read, or if memory runs out. A text that can't be read is part of the report.
pub fn report_of<R: Env + AllocGlobal, S: Shelf, P: Program>(
    rt: &R,
    shelf: &mut S,
    program: &P,
) -> io::Result<String> {
    let mut report = played(rt, shelf, program)?;
    if add_total(&mut report).is_err() {
        return Err(io::Error::from(io::ErrorKind::OutOfMemory));
    }
    Ok(report.lines)
}
