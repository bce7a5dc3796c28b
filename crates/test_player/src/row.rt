//! Reads a row's headings, and plays its jobs one after another on the same files.
use crate::heading::{Heading, WorkedRow};
use crate::number::{Counter, bounds};
use crate::part::{PartKind, line_of, text_of};
use crate::play::Program;
use crate::scene::{Calls, HandedIn, PlayedJob, SceneFile};
use crate::stop::PlayStop;
use crate::turn::run_job;
use std::alloc::Global;
use tl_text::decimal;

// The room of a port without a heading that sets it.
const PORT_ROOM: usize = 100;

const UNREAD: PlayStop = PlayStop::Unread(0, "a heading that can't be read");

// A row that is being played: the present files, the next job, and the differences so far.
#[derive(Drop)]
struct Scene<'a, P: Program> {
    alloc: Global,
    program: &'a P,
    counters: &'a [Counter<'a>],
    files: Vec<SceneFile>,
    job: PlayedJob,
    differences: String,
}

// A number below 2^32.
fn number(word: &str) -> Result<u32, PlayStop> {
    let number = decimal(word.as_bytes()).ok_or(UNREAD)?;
    u32::try_from(number).ok().ok_or(UNREAD)
}

fn status(word: &str) -> Result<u8, PlayStop> {
    u8::try_from(number(word)?).ok().ok_or(UNREAD)
}

fn numbers(alloc: Global, words: &str) -> Result<Vec<u64>, PlayStop> {
    let mut numbers = Vec::new(alloc);
    for word in words.split(' ') {
        numbers.push(decimal(word.as_bytes()).ok_or(UNREAD)?)?;
    }
    Ok(numbers)
}

fn calls(alloc: Global, words: &str) -> Result<Calls, PlayStop> {
    if words == "in turn" {
        return Ok(Calls::InTurn);
    }
    Ok(Calls::These(numbers(alloc, words)?))
}

fn string(bytes: Vec<u8>) -> Result<String, PlayStop> {
    String::from_utf8(bytes).ok().ok_or(UNREAD)
}

// The arguments in a command line: separated by single blanks; two quotes are the empty argument.
fn words_of(alloc: Global, line: &str) -> Result<Vec<String>, PlayStop> {
    let mut words = Vec::new(alloc);
    for word in line.split(' ').skip(1) {
        let text = if word == "\"\"" { "" } else { word };
        words.push(string(line_of(alloc, PartKind::Plain, text, &[])?)?)?;
    }
    Ok(words)
}

// Replaces the file of the same name, or adds the file at the end.
fn put_file(files: &mut Vec<SceneFile>, file: SceneFile) -> Result<(), PlayStop> {
    for old in files.iter_mut() {
        if old.name.as_str() == file.name.as_str() {
            old.bytes = file.bytes;
            return Ok(());
        }
    }
    files.push(file)?;
    Ok(())
}

impl<P: Program> Scene<'_, P> {
    // The bytes of a heading's text, by the options after a name or a word.
    fn bytes(&self, options: &str, heading: &Heading) -> Result<Vec<u8>, PlayStop> {
        let (kind, first) = match options.strip_prefix("hex") {
            Some(first) => (PartKind::Hex, first),
            None => match options.strip_prefix("made") {
                Some(first) => (PartKind::Made, first),
                None => (PartKind::Plain, options),
            },
        };
        let mut bytes = text_of(self.alloc, kind, heading.text.as_slice(), self.counters)?;
        if let Some(count) = first.strip_prefix(" first ") {
            let count = number(count)?;
            bytes.truncate(count as usize);
        } else if !first.is_empty() {
            return Err(UNREAD);
        }
        Ok(bytes)
    }

    // The file in a heading: a name, and options.
    fn file(&self, rest: &str, heading: &Heading) -> Result<SceneFile, PlayStop> {
        let (name, options) = rest.split_once(' ').unwrap_or((rest, ""));
        let name = String::from_str(self.alloc, name)?;
        let bytes = self.bytes(options, heading)?;
        Ok(SceneFile { name, bytes })
    }

    // Runs the job that was read, if there is one, and begins the next one.
    fn finish(&mut self) -> Result<(), PlayStop> {
        let job = std::mem::replace(&mut self.job, PlayedJob::new(self.alloc));
        for file in &job.wanted.files {
            if crate::scene::find(self.files.as_slice(), file.name.as_str()).is_none() {
                let name = file.name.clone()?;
                let bytes = Vec::new(self.alloc);
                self.files.push(SceneFile { name, bytes })?;
            }
        }
        for words in &job.words {
            let (ran, text) = run_job(
                self.alloc,
                self.program,
                self.files.as_slice(),
                &job,
                words.as_slice(),
            )?;
            self.files = ran.files;
            self.differences.push_str(text.as_str())?;
        }
        Ok(())
    }

    // Resets what the next job has outside.
    fn prepare(&mut self) -> Result<(), PlayStop> {
        if self.job.words.is_empty() {
            return Ok(());
        }
        self.finish()
    }

    // The room of a port, or which of its calls fail.
    fn port(&mut self, rest: &str) -> Result<(), PlayStop> {
        let (word, rest) = rest.split_once(' ').ok_or(UNREAD)?;
        let (kind, value) = rest.split_once(' ').ok_or(UNREAD)?;
        let place = number(word)? as usize;
        let port = self.job.ports.get_mut(place).ok_or(UNREAD)?;
        match kind {
            "room" => port.room = number(value)? as usize,
            "fails" => port.fails = numbers(self.alloc, value)?,
            _ => return Err(UNREAD),
        }
        Ok(())
    }

    fn ports(&mut self, rest: &str) -> Result<(), PlayStop> {
        self.prepare()?;
        for _ in 0..number(rest)? {
            let fails = Vec::new(self.alloc);
            let room = PORT_ROOM;
            self.job.ports.push(HandedIn { room, fails })?;
        }
        Ok(())
    }

    fn add_file(&mut self, rest: &str, heading: &Heading) -> Result<(), PlayStop> {
        self.prepare()?;
        let file = self.file(rest, heading)?;
        put_file(&mut self.files, file)
    }

    fn set_calls(&mut self, word: &str, calls: Calls) {
        match word {
            "shelf" => self.job.shelf = calls,
            "out" => self.job.out = calls,
            _ => self.job.err = calls,
        }
    }

    // Reads which calls of an object fail. Returns whether the word names an object.
    fn fails(&mut self, word: &str, words: &str) -> Result<bool, PlayStop> {
        if word != "shelf" && word != "out" && word != "err" {
            return Ok(false);
        }
        self.prepare()?;
        let calls = calls(self.alloc, words)?;
        self.set_calls(word, calls);
        Ok(true)
    }

    // Reads what a job has outside. Returns whether the heading describes that.
    fn outside(&mut self, word: &str, rest: &str, heading: &Heading) -> Result<bool, PlayStop> {
        if let Some(words) = rest.strip_prefix("fails ") {
            return self.fails(word, words);
        }
        match word {
            "file" => self.add_file(rest, heading)?,
            "ports" => self.ports(rest)?,
            "port" => self.port(rest)?,
            _ => return Ok(false),
        }
        Ok(true)
    }

    // Further arguments that must give the same result.
    fn also(&mut self, rest: &str) -> Result<(), PlayStop> {
        let line = rest.strip_prefix("$ tlut").ok_or(UNREAD)?;
        let words = words_of(self.alloc, line)?;
        self.job.words.push(words)?;
        Ok(())
    }

    // The fault line, in the heading or below it.
    fn err(&mut self, rest: &str, heading: &Heading) -> Result<(), PlayStop> {
        let is_below = rest.is_empty() || rest == "made";
        let bytes = if is_below {
            self.bytes(rest, heading)?
        } else {
            text_of(self.alloc, PartKind::Plain, &[rest], &[])?
        };
        self.job.wanted.err = bytes;
        Ok(())
    }

    fn left(&mut self, rest: &str, heading: &Heading) -> Result<(), PlayStop> {
        let file = self.file(rest, heading)?;
        self.job.wanted.files.push(file)?;
        Ok(())
    }

    // A line of the ports.
    fn log(&mut self, rest: &str) -> Result<(), PlayStop> {
        self.job.wanted.ports.extend_from_slice(rest.as_bytes())?;
        self.job.wanted.ports.push(b'\n')?;
        Ok(())
    }

    // Reads what a job must leave.
    fn wanted(&mut self, word: &str, rest: &str, heading: &Heading) -> Result<(), PlayStop> {
        if self.job.words.is_empty() {
            return Err(UNREAD);
        }
        match word {
            "also" => self.also(rest),
            "out" => {
                self.job.wanted.out = self.bytes(rest, heading)?;
                Ok(())
            }
            "err" => self.err(rest, heading),
            "status" => {
                self.job.wanted.status = status(rest)?;
                Ok(())
            }
            "left" => self.left(rest, heading),
            "log" => self.log(rest),
            _ => Err(UNREAD),
        }
    }

    // Reads a heading.
    fn take(&mut self, line: &str, heading: &Heading) -> Result<(), PlayStop> {
        if let Some(words) = line.strip_prefix("$ tlut") {
            self.prepare()?;
            self.job.words.push(words_of(self.alloc, words)?)?;
            self.job.wanted.out = self.bytes("", heading)?;
            return Ok(());
        }
        let (word, rest) = line.split_once(' ').unwrap_or((line, ""));
        if word == "each" || self.outside(word, rest, heading)? {
            return Ok(());
        }
        self.wanted(word, rest, heading)
    }

    fn take_heading(&mut self, heading: &Heading) -> Result<(), PlayStop> {
        if self.counters.is_empty() {
            return self.take(heading.line, heading);
        }
        let line = string(line_of(self.alloc, PartKind::Filled, heading.line, self.counters)?)?;
        self.take(line.as_str(), heading)
    }
}

// Plays a row once, and returns the differences.
fn play_once<P: Program>(
    alloc: Global,
    program: &P,
    common: &[Heading],
    row: &WorkedRow,
    counters: &[Counter],
) -> Result<String, PlayStop> {
    let mut scene = Scene {
        alloc,
        program,
        counters,
        files: Vec::new(alloc),
        job: PlayedJob::new(alloc),
        differences: String::new(alloc),
    };
    for heading in common.iter().chain(row.headings.iter()) {
        if let Err(stop) = scene.take_heading(heading) {
            return Err(stop.at(heading.number));
        }
    }
    if scene.job.words.is_empty() {
        return Err(PlayStop::Unread(row.number, "a row without a job"));
    }
    if let Err(stop) = scene.finish() {
        return Err(stop.at(row.number));
    }
    Ok(scene.differences)
}

// The counter of a row that is played once for each of its values, with its bounds.
fn counter_of<'a>(
    alloc: Global,
    row: &WorkedRow<'a>,
) -> Result<Option<(&'a str, i64, i64)>, PlayStop> {
    for heading in &row.headings {
        if let Some(rest) = heading.line.strip_prefix("each ") {
            let (name, range) = rest.split_once(' ').ok_or(UNREAD)?;
            let (first, last) = bounds(alloc, range, &[])?;
            return Ok(Some((name, first, last)));
        }
    }
    Ok(None)
}

/// Plays a row, and returns the differences: none if each job leaves what it must.
pub fn play_row<P: Program>(
    alloc: Global,
    program: &P,
    common: &[Heading],
    row: &WorkedRow,
) -> Result<String, PlayStop> {
    let Some((name, first, last)) = counter_of(alloc, row)? else {
        return play_once(alloc, program, common, row, &[]);
    };
    for value in first..last.saturating_add(1) {
        let differences = play_once(alloc, program, common, row, &[Counter { name, value }])?;
        if !differences.is_empty() {
            return Ok(differences);
        }
    }
    Ok(String::new(alloc))
}
