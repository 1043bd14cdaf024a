//! Reading the lines of a text one after another, up to the first bad one.
ghost use Rattle.std.specs.Prelude.{◌≡◌, ◌+◌, ◌<◌, ◌≤◌, length, IfNone, IfOk, OnOk, IsTrue};
ghost use Rattle.script_read.specs.LineByLine.{at_end, read_text};
ghost use Rattle.script_read.specs.Judging.{IsJudged, IsJudgedWithin};
ghost use Rattle.script_read.specs.NameNumbers.{ListsNames, ListsJudged};
ghost use Rattle.script_read.specs.Progress.{reading_of, IsSteady, IsLineRead};
ghost use Rattle.script_types.specs.Context.{start, after, is_ended};
ghost use Rattle.script_types.specs.Names.{file_declares};
ghost use Rattle.script_types.specs.SourceText.{text_lines};
ghost use Rattle.script_types.specs.Stands.{is_within};

use crate::Reason;
use crate::context::{add_line, new_context};
use crate::declarations::FileNames;
use crate::judge::{Judged, judge_text};
use crate::limits::instrs_after;
use crate::order::is_ended;
use crate::taken_names::TakenNames;
use script_types::{Context, SourceLine};
use script_words::first_line;
use std::alloc::Global;
use sym_base::NoMemory;

/// What reading a text gives.
#[derive(Drop)]
pub enum Reading {
    /// No line is bad, and this is what they make.
    Whole(Context),
    /// The first bad line, from 1, and what is wrong with it.
    Bad { line: u32, reason: Reason },
}

/// The lines so far: what they make, the names that they take, and how many instructions they have; the whole text,
/// and the words of the last line.
#[derive(Drop)]
struct Progress<'a> {
    context: Context,
    taken: TakenNames,
    instructions: usize,
    names: FileNames<'a>,
    words: Vec<&'a [u8]>,
}

impl<'a> Progress<'a> {
    /// Before the first line.
    fn new(alloc: Global, text: &'a [u8]) -> Self
        ensures context { result.context ≡ start }
        ensures steady { IsSteady result }
        ensures listed { ListsNames result.taken result.context.script }
        ensures text { result.names.text.now ≡ text.now }
    {
        Progress {
            context: new_context(alloc),
            taken: TakenNames::new(alloc),
            instructions: 0,
            names: FileNames::new(alloc, text),
            words: Vec::new(alloc),
        }
    }

    /// Adds a line.
    #[tactic(auto, using(crate::proofs::ProgressLaws::processes_after))]
    fn add(&mut self, alloc: Global, line: SourceLine) -> Result<(), NoMemory>
        requires steady { IsSteady self.old }
        requires within { IsTrue (is_within self.old.context line) }
        ensures made { OnOk result (self.new.context ≡ after self.old.context line) }
        ensures taken { self.new.taken ≡ self.old.taken }
        ensures steady { OnOk result (IsSteady self.new) }
        ensures text { self.new.names.text.now ≡ self.old.names.text.now }
    {
        let instructions = instrs_after(&self.context, self.instructions, &line);
        add_line(alloc, &mut self.context, line)?;
        self.instructions = instructions;
        Ok(())
    }

    /// What one more line is.
    fn judge(&mut self, alloc: Global, text: &'a [u8]) -> Result<Judged, NoMemory>
        requires steady { IsSteady self.old }
        requires listed { ListsNames self.old.taken self.old.context.script }
        ensures judged { IfOk result (IsJudged (file_declares (text_lines self.old.names.text.now)) self.old.context text.now) }
        ensures within { IfOk result (IsJudgedWithin self.old.context) }
        ensures listed { IfOk result (ListsJudged self.new.taken self.old.context) }
        ensures steady { IsSteady self.new }
        ensures context { self.new.context ≡ self.old.context }
        ensures text { self.new.names.text.now ≡ self.old.names.text.now }
    {
        judge_text(
            alloc,
            &mut self.names,
            &mut self.words,
            &mut self.taken,
            &self.context,
            self.instructions,
            text,
        )
    }

    /// Reads one more line. Answers its reason where it is bad; then the lines so far stay as they are.
    fn read_line(&mut self, alloc: Global, text: &'a [u8]) -> Result<Option<Reason>, NoMemory>
        requires steady { IsSteady self.old }
        requires listed { ListsNames self.old.taken self.old.context.script }
        ensures read { IfOk result (λ found. IsLineRead (file_declares (text_lines self.old.names.text.now)) self.old.context text.now found self.new.context) }
        ensures steady { OnOk result (IsSteady self.new) }
        ensures listed { IfOk result (λ found. IfNone found (ListsNames self.new.taken self.new.context.script)) }
        ensures text { self.new.names.text.now ≡ self.old.names.text.now }
    {
        match self.judge(alloc, text)? {
            Judged::Skipped => Ok(None),
            Judged::Bad(reason) => Ok(Some(reason)),
            Judged::Line(line) => {
                self.add(alloc, line)?;
                Ok(None)
            }
        }
    }
}

/// What the lines are where none is bad: the line behind them is missing, unless the last is `end`.
fn end_lines(context: Context, line: u32) -> Reading
    ensures { reading_of result ≡ at_end context line (is_ended context) }
{
    if is_ended(&context) {
        Reading::Whole(context)
    } else {
        Reading::Bad {
            line,
            reason: Reason::End,
        }
    }
}

/// Reads a text of fewer bytes than 32 bits can number.
pub fn read_text(alloc: Global, text: &[u8]) -> Result<Reading, NoMemory>
    requires { length text.now < 4294967295 }
    ensures { IfOk result (λ reading. reading_of reading ≡ read_text text.now) }
{
    let mut progress = Progress::new(alloc, text);
    let mut number: u32 = 1;
    let mut rest = text;
    while !rest.is_empty() {
        let (line, behind) = first_line(rest);
        if let Some(reason) = progress.read_line(alloc, line)? {
            return Ok(Reading::Bad {
                line: number,
                reason,
            });
        }
        number += 1;
        rest = behind;
    }
    let Progress { context, .. } = progress;
    Ok(end_lines(context, number))
}
