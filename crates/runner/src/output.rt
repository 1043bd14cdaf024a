//! Writing a history, or the line of a refusal. Each line goes out with its line feed, by one `write_whole`.
ghost use Rattle.std.specs.Prelude.{◌≡◌, ◌≤◌, [], ◌∷◌, is_some, OnOk, OnErr};
ghost use Rattle.std.specs.List.{flat_map};
ghost use Rattle.edge_io.specs.Faults.{Rose};
ghost use Rattle.edge_io.specs.Written.{Wrote, WrotePrefix};
ghost use Rattle.entry_log.specs.EntryLine.{entry_line};
ghost use Rattle.entry_log.specs.FinalLine.{final_line};
ghost use Rattle.entry_log.specs.HistoryText.{history_text};
ghost use Rattle.machine.specs.FinalRows.{final_rows};
ghost use Rattle.machine.specs.History.{IsLegalIn};
ghost use Rattle.machine_safe.specs.Safe.{IsSafeIn};
ghost use Rattle.runner.specs.RunText.{is_split, shown, state_after};
ghost use Rattle.script_read.specs.Refusal.{refusal_text};
ghost use Rattle.script_types.specs.Source.{IsWellFormed};

use crate::detail::Detail;
use arrayvec::ArrayVec;
use edge_io::{Failed, Sink, write_whole};
use entry_log::{Entry, EntryLine, FinalRow, final_text};
use itoa::Buffer;
use kcore::Kernel;
use ref_words::RefWords;
use script_read::Reason;

/// The bytes of a line, its line feed among them.
pub type Line = ArrayVec<u8, 512>;

/// Puts the line of an object that is left into a buffer, in place of what it held.
fn put_row(line: &mut Line, row: &FinalRow)
    ensures { line.new.items ≡ final_line row.now }
{
    line.clear();
    let _ = final_text(row, line);
}

/// The line of a refusal.
fn line_of_refusal(line: u32, reason: Reason) -> Line
    ensures { result.items ≡ refusal_text line reason }
{
    let mut text = Line::new();
    let mut digits = Buffer::new();
    let _ = text.try_extend_from_slice(b"refused line ");
    let _ = text.try_extend_from_slice(digits.format(line).as_bytes());
    let _ = text.try_extend_from_slice(b" ");
    let _ = text.try_extend_from_slice(reason.word().as_bytes());
    let _ = text.try_extend_from_slice(b"\n");
    text
}

/// Writes the line of an entry, if the detail shows it, made in the place of the one before it.
fn write_entry<K: Sink>(
    sink: &mut K,
    line: &mut EntryLine,
    detail: Detail,
    entry: &Entry,
) -> Result<(), Failed>
    ensures whole { OnOk result (Wrote (K.written sink.old) (K.written sink.new) (flat_map entry_line (shown detail (entry.now ∷ [])))) }
    ensures front { OnErr result (WrotePrefix (K.written sink.old) (K.written sink.new) (flat_map entry_line (shown detail (entry.now ∷ [])))) }
    ensures tells { is_some (K.written sink.new) ≡ is_some (K.written sink.old) }
    ensures fault { OnErr result (Rose (K.faults sink.old) (K.faults sink.new)) }
    ensures never_falls { K.faults sink.old ≤ K.faults sink.new }
{
    if !detail.shows(entry) {
        return Ok(());
    }
    line.put(entry);
    write_whole(sink, line.as_slice())
}

/// Writes the line of each entry that the detail shows, each made in the place of the one before it.
#[inline(never)]
fn write_entries<K: Sink>(
    sink: &mut K,
    line: &mut EntryLine,
    detail: Detail,
    entries: &[Entry],
) -> Result<(), Failed>
    ensures whole { OnOk result (Wrote (K.written sink.old) (K.written sink.new) (flat_map entry_line (shown detail entries.now))) }
    ensures front { OnErr result (WrotePrefix (K.written sink.old) (K.written sink.new) (flat_map entry_line (shown detail entries.now))) }
    ensures tells { is_some (K.written sink.new) ≡ is_some (K.written sink.old) }
    ensures fault { OnErr result (Rose (K.faults sink.old) (K.faults sink.new)) }
    ensures never_falls { K.faults sink.old ≤ K.faults sink.new }
{
    for entry in entries {
        write_entry(sink, line, detail, entry)?;
    }
    Ok(())
}

/// Writes the line of each object that is left, by way of one buffer.
fn write_rows<K: Sink, W: RefWords + Drop>(
    sink: &mut K,
    line: &mut Line,
    kernel: &Kernel<W>,
) -> Result<(), Failed>
    requires valid { IsWellFormed kernel.now.script }
    ensures whole { OnOk result (Wrote (K.written sink.old) (K.written sink.new)
        (flat_map final_line (final_rows (state_after kernel.now)))) }
    ensures front { OnErr result (WrotePrefix (K.written sink.old) (K.written sink.new)
        (flat_map final_line (final_rows (state_after kernel.now)))) }
    ensures tells { is_some (K.written sink.new) ≡ is_some (K.written sink.old) }
    ensures fault { OnErr result (Rose (K.faults sink.old) (K.faults sink.new)) }
    ensures never_falls { K.faults sink.old ≤ K.faults sink.new }
{
    let mut from = 0;
    while let Some(row) = kernel.next_row(from) {
        put_row(line, &row);
        write_whole(sink, line.as_slice())?;
        from = row.object.0 + 1;
    }
    Ok(())
}

/// Writes the history of a kernel, which one caller made alone or callers who share it: the entries that the detail shows,
/// and the objects that are left. One buffer holds the line of each entry in turn, and one that of each object.
fn write_history<K: Sink, W: RefWords + Drop>(
    sink: &mut K,
    detail: Detail,
    kernel: &Kernel<W>,
) -> Result<(), Failed>
    requires valid { IsWellFormed kernel.now.script }
    ensures whole { OnOk result (Wrote (K.written sink.old) (K.written sink.new)
        (history_text (shown detail kernel.now.history) (final_rows (state_after kernel.now)))) }
    ensures front { OnErr result (WrotePrefix (K.written sink.old) (K.written sink.new)
        (history_text (shown detail kernel.now.history) (final_rows (state_after kernel.now)))) }
    ensures legal { IsLegalIn (is_split kernel.now.mode) kernel.now.script kernel.now.history }
    ensures safe { IsSafeIn (is_split kernel.now.mode) kernel.now.script kernel.now.history }
    ensures tells { is_some (K.written sink.new) ≡ is_some (K.written sink.old) }
    ensures fault { OnErr result (Rose (K.faults sink.old) (K.faults sink.new)) }
    ensures never_falls { K.faults sink.old ≤ K.faults sink.new }
{
    write_entries(sink, &mut EntryLine::new(), detail, kernel.history())?;
    write_whole(sink, b"objects\n")?;
    write_rows(sink, &mut Line::new(), kernel)?;
    write_whole(sink, b"end\n")
}

/// The same of a kernel that isn't needed any more.
pub fn write_kernel<K: Sink, W: RefWords + Drop>(
    sink: &mut K,
    detail: Detail,
    kernel: Kernel<W>,
) -> Result<(), Failed>
    requires valid { IsWellFormed kernel.script }
    ensures whole { OnOk result (Wrote (K.written sink.old) (K.written sink.new)
        (history_text (shown detail kernel.history) (final_rows (state_after kernel)))) }
    ensures front { OnErr result (WrotePrefix (K.written sink.old) (K.written sink.new)
        (history_text (shown detail kernel.history) (final_rows (state_after kernel)))) }
    ensures legal { IsLegalIn (is_split kernel.mode) kernel.script kernel.history }
    ensures safe { IsSafeIn (is_split kernel.mode) kernel.script kernel.history }
    ensures tells { is_some (K.written sink.new) ≡ is_some (K.written sink.old) }
    ensures fault { OnErr result (Rose (K.faults sink.old) (K.faults sink.new)) }
    ensures never_falls { K.faults sink.old ≤ K.faults sink.new }
{
    let written = write_history(sink, detail, &kernel);
    drop(kernel);
    written
}

/// Writes the one line of a refused script.
pub fn write_refusal<K: Sink>(sink: &mut K, line: u32, reason: Reason) -> Result<(), Failed>
    ensures whole { OnOk result (Wrote (K.written sink.old) (K.written sink.new) (refusal_text line reason)) }
    ensures front { OnErr result (WrotePrefix (K.written sink.old) (K.written sink.new) (refusal_text line reason)) }
    ensures tells { is_some (K.written sink.new) ≡ is_some (K.written sink.old) }
    ensures fault { OnErr result (Rose (K.faults sink.old) (K.faults sink.new)) }
    ensures never_falls { K.faults sink.old ≤ K.faults sink.new }
{
    write_whole(sink, line_of_refusal(line, reason).as_slice())
}
