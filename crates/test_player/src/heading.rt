//! Splits a text of rows into headings and the lines below them.
use crate::stop::PlayStop;
use std::alloc::Global;

/// A heading: its line number, its line, and the lines of text below it without their two leading blanks.
#[derive(Drop)]
pub struct Heading<'a> {
    pub number: u32,
    pub line: &'a str,
    pub text: Vec<&'a str>,
}

/// A row: the line where it begins, its title, and its headings.
#[derive(Drop)]
pub struct WorkedRow<'a> {
    pub number: u32,
    pub title: &'a str,
    /// Whether the row must fail.
    pub is_spoilt: bool,
    pub headings: Vec<Heading<'a>>,
}

/// A text: its rows, and the headings before the first row, which apply to each row.
#[derive(Drop)]
pub struct Text<'a> {
    pub common: Vec<Heading<'a>>,
    pub rows: Vec<WorkedRow<'a>>,
}

// Adds a line to the text of the last heading.
fn add_text<'a>(
    headings: &mut Vec<Heading<'a>>,
    number: u32,
    line: &'a str,
) -> Result<(), PlayStop> {
    match headings.last_mut() {
        Some(heading) => {
            heading.text.push(line)?;
            Ok(())
        }
        None => Err(PlayStop::Unread(number, "text without a heading")),
    }
}

impl<'a> Text<'a> {
    // Reads a line as text of the last heading.
    fn add_text(&mut self, number: u32, line: &'a str) -> Result<(), PlayStop> {
        match self.rows.last_mut() {
            Some(row) => add_text(&mut row.headings, number, line),
            None => add_text(&mut self.common, number, line),
        }
    }

    // Reads a heading of the last row, or one before the first row.
    fn add_heading(&mut self, heading: Heading<'a>) -> Result<(), PlayStop> {
        match self.rows.last_mut() {
            Some(row) => row.headings.push(heading)?,
            None => self.common.push(heading)?,
        }
        Ok(())
    }

    fn add_row(
        &mut self,
        alloc: Global,
        number: u32,
        title: &'a str,
        is_spoilt: bool,
    ) -> Result<(), PlayStop> {
        let headings = Vec::new(alloc);
        self.rows.push(WorkedRow {
            number,
            title,
            is_spoilt,
            headings,
        })?;
        Ok(())
    }

    // Reads the line with this number.
    fn add_line(&mut self, alloc: Global, number: u32, line: &'a str) -> Result<(), PlayStop> {
        if let Some(text) = line.strip_prefix("  ") {
            return self.add_text(number, text);
        }
        if line.is_empty() || line.starts_with('#') {
            return Ok(());
        }
        if let Some(title) = line.strip_prefix("row ") {
            return self.add_row(alloc, number, title, false);
        }
        if let Some(title) = line.strip_prefix("spoilt row ") {
            return self.add_row(alloc, number, title, true);
        }
        let text = Vec::new(alloc);
        self.add_heading(Heading { number, line, text })
    }

    /// Splits a text into its rows.
    pub fn read(alloc: Global, text: &'a str) -> Result<Text<'a>, PlayStop> {
        let mut read = Text {
            common: Vec::new(alloc),
            rows: Vec::new(alloc),
        };
        for (number, line) in (1..u32::MAX).zip(text.split('\n')) {
            read.add_line(alloc, number, line)?;
        }
        Ok(read)
    }
}
