//! What a line of a text is: bad, and for which reason, or a line.
ghost use Rattle.std.specs.Prelude.{◌≡◌, IsTrue, IfNone, IfOk, List};
ghost use Rattle.script_read.specs.Judging.{refused, reason_of_fault, word_tests, line_tests, judged_as, IsJudged, IsJudgedWithin};
ghost use Rattle.script_read.specs.FileNames.{Knows, AreKnown, names_something};
ghost use Rattle.script_read.specs.NameNumbers.{ListsNames, ListsJudged};
ghost use Rattle.script_words.specs.Pieces.{pieces};
ghost use Rattle.script_types.specs.Context.{after};
ghost use Rattle.script_types.specs.Names.{Declared, file_declares};
ghost use Rattle.script_types.specs.SourceText.{text_lines};
ghost use Rattle.script_types.specs.Stands.{all_instrs, is_within};

use crate::Reason;
use crate::declarations::{Declarations, FileNames};
use crate::known::{is_known, names_something};
use crate::limits::is_within;
use crate::order::{is_in_order, is_scheduled};
use crate::standing::{is_new, is_right_kind};
use crate::taken_names::TakenNames;
use script_types::{Context, SourceLine};
use script_words::{
    Fault, Keyword, begins_comment, is_counted, is_printed, is_short, is_skipped, keyword_kind,
    keyword_of, line_as, line_fault, second_of, take_words, word_at,
};
use std::alloc::Global;
use sym_base::NoMemory;

/// What a line of a text is, behind the lines before it.
#[derive(Drop)]
pub enum Judged {
    /// It has no words, or is a comment.
    Skipped,
    /// It may stand here, and this is the line.
    Line(SourceLine),
    /// It is bad, and this is the first reason.
    Bad(Reason),
}

/// The reason of what is wrong with words.
fn reason_of_fault(fault: Option<Fault>) -> Option<Reason>
    ensures { result ≡ reason_of_fault fault }
{
    match fault {
        Some(Fault::Form) => Some(Reason::Form),
        Some(Fault::Range) => Some(Reason::Range),
        None => None,
    }
}

/// The first reason why words may not be a line here: its place, their number, their forms, their ranges.
fn reason_of_words(context: &Context, keyword: Keyword, words: &[&[u8]]) -> Option<Reason>
    ensures { result ≡ refused (word_tests context.now keyword (pieces words.now)) }
{
    let scheduled = is_scheduled(context);
    if !is_in_order(context, keyword_kind(scheduled, keyword)) {
        return Some(Reason::Order);
    }
    let second = second_of(scheduled, keyword, words);
    if !is_counted(keyword, second, words) {
        return Some(Reason::Count);
    }
    reason_of_fault(line_fault(keyword, second, words))
}

/// The first reason why a line may not stand here: its thread, its names, or the limits.
fn reason_of_line(
    declarations: &Declarations<'_>,
    taken: &mut TakenNames,
    context: &Context,
    instructions: usize,
    line: &SourceLine,
) -> Result<Option<Reason>, NoMemory>
    requires count { instructions ≡ all_instrs context.now.script.threads }
    requires listed { ListsNames taken.old context.now.script }
    ensures tests { IfOk result (λ reason. (file : List Declared) → (IsTrue (names_something line.now) → Knows declarations.now file)
        → reason ≡ refused (line_tests file context.now line.now)) }
    ensures within { IfOk result (λ reason. IfNone reason (IsTrue (is_within context.now line.now))) }
    ensures listed { IfOk result (λ reason. IfNone reason (ListsNames taken.new (after context.now line.now).script)) }
{
    if !is_right_kind(context, line) {
        return Ok(Some(Reason::Kind));
    }
    if !is_new(taken, context, line)? {
        return Ok(Some(Reason::Twice));
    }
    if !is_known(declarations, context, line) {
        return Ok(Some(Reason::Unknown));
    }
    if !is_within(context, instructions, line) {
        return Ok(Some(Reason::Limit));
    }
    Ok(None)
}

/// What the words of a line are whose first word begins one.
fn judge_words(
    alloc: Global,
    names: &mut FileNames<'_>,
    taken: &mut TakenNames,
    context: &Context,
    instructions: usize,
    keyword: Keyword,
    words: &[&[u8]],
) -> Result<Judged, NoMemory>
    requires count { instructions ≡ all_instrs context.now.script.threads }
    requires known { AreKnown names.old }
    requires listed { ListsNames taken.old context.now.script }
    ensures judged { IfOk result (λ judged. judged ≡ judged_as (file_declares (text_lines names.old.text.now)) context.now keyword (pieces words.now)) }
    ensures within { IfOk result (IsJudgedWithin context.now) }
    ensures known { AreKnown names.new }
    ensures listed { IfOk result (ListsJudged taken.new context.now) }
    ensures text { names.new.text.now ≡ names.old.text.now }
{
    if let Some(reason) = reason_of_words(context, keyword, words) {
        return Ok(Judged::Bad(reason));
    }
    let second = second_of(is_scheduled(context), keyword, words);
    let line = line_as(alloc, keyword, second, words)?;
    names.read_where(alloc, names_something(&line))?;
    match reason_of_line(&names.declarations, taken, context, instructions, &line)? {
        Some(reason) => Ok(Judged::Bad(reason)),
        None => Ok(Judged::Line(line)),
    }
}

/// What a line of a text is, behind lines that make the context and have so many instructions.
pub fn judge_text<'a>(
    alloc: Global,
    names: &mut FileNames<'_>,
    words: &mut Vec<&'a [u8]>,
    taken: &mut TakenNames,
    context: &Context,
    instructions: usize,
    text: &'a [u8],
) -> Result<Judged, NoMemory>
    requires count { instructions ≡ all_instrs context.now.script.threads }
    requires known { AreKnown names.old }
    requires listed { ListsNames taken.old context.now.script }
    ensures judged { IfOk result (IsJudged (file_declares (text_lines names.old.text.now)) context.now text.now) }
    ensures within { IfOk result (IsJudgedWithin context.now) }
    ensures known { AreKnown names.new }
    ensures listed { IfOk result (ListsJudged taken.new context.now) }
    ensures text { names.new.text.now ≡ names.old.text.now }
{
    if !is_printed(text) {
        return Ok(Judged::Bad(Reason::Byte));
    }
    if !is_short(text) {
        return Ok(Judged::Bad(Reason::Long));
    }
    if begins_comment(text) {
        return Ok(Judged::Skipped);
    }
    take_words(words, text)?;
    let words = words.as_slice();
    if is_skipped(words) {
        return Ok(Judged::Skipped);
    }
    let Some(keyword) = keyword_of(word_at(words, 0)) else {
        return Ok(Judged::Bad(Reason::Word));
    };
    judge_words(alloc, names, taken, context, instructions, keyword, words)
}
