//! A run as text.
use arrayvec::ArrayVec;
use entry_log::{Entry, FinalRow, entry_text, final_text};
use std::alloc::{AllocError, Global};

/// Rows are asked from each number below it. The scripts make fewer objects.
pub const NUMBERS: u16 = 16;

/// The bytes of a line, its line feed among them.
pub type Line = ArrayVec<u8, 512>;

/// The line of an entry.
pub fn line_of_entry(entry: &Entry) -> Line {
    let mut line = Line::new();
    let _ = entry_text(entry, &mut line);
    line
}

/// The line of an object that is left.
fn line_of_row(row: &FinalRow) -> Line {
    let mut line = Line::new();
    let _ = final_text(row, &mut line);
    line
}

/// The lines of a history.
pub fn lines_of(alloc: Global, history: &[Entry]) -> Result<Vec<u8>, AllocError> {
    let mut text = Vec::new(alloc);
    for entry in history {
        text.extend_from_slice(line_of_entry(entry).as_slice())?;
    }
    Ok(text)
}

/// The lines of the objects that are left.
#[derive(Drop)]
pub struct Rows {
    /// As `run` prints them.
    own: Vec<u8>,
    /// The first one of the numbers from each number on, a line each, which is empty where there is none.
    each: Vec<u8>,
}

/// Adds the line of an object that is left.
fn add_line(text: &mut Vec<u8>, row: &FinalRow) -> Result<(), AllocError> {
    text.extend_from_slice(line_of_row(row).as_slice())
}

impl Rows {
    /// No lines yet.
    pub fn new(alloc: Global) -> Rows {
        Rows {
            own: Vec::new(alloc),
            each: Vec::new(alloc),
        }
    }

    /// Adds the first object that is left of the numbers from this one on.
    pub fn add(&mut self, number: u16, row: Option<FinalRow>) -> Result<(), AllocError> {
        let Some(row) = row else {
            return self.each.extend_from_slice(b"\n");
        };
        add_line(&mut self.each, &row)?;
        if row.object.0 == number {
            add_line(&mut self.own, &row)
        } else {
            Ok(())
        }
    }
}

/// What a machine made of a script.
#[derive(Drop)]
pub struct Ran {
    /// The history and the objects that are left, as `run` prints them.
    pub text: Vec<u8>,
    /// The first object that is left of the numbers from each number on, a line each.
    pub rows: Vec<u8>,
}

/// The texts of a history and of the objects that are left.
pub fn ran_of(alloc: Global, history: &[Entry], rows: Rows) -> Result<Ran, AllocError> {
    let Rows { own, each } = rows;
    let mut text = lines_of(alloc, history)?;
    text.extend_from_slice(b"objects\n")?;
    text.extend_from_slice(own.as_slice())?;
    text.extend_from_slice(b"end\n")?;
    Ok(Ran { text, rows: each })
}
