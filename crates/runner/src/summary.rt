//! What a run comes to.
ghost use Rattle.std.specs.List.{count_by, sum_by};
ghost use Rattle.std.specs.Prelude.{◌≡◌, ◌+◌, ◌*◌, ◌<◌, ◌≤◌, ◌++◌, [], length, decimal, is_some, OnOk, OnErr};
ghost use Rattle.edge_io.specs.Faults.{Rose};
ghost use Rattle.edge_io.specs.Written.{Wrote, WrotePrefix};
ghost use Rattle.machine.specs.FinalRows.{final_rows};
ghost use Rattle.machine.specs.History.{after, IsLegal};
ghost use Rattle.machine.specs.Run.{run};
ghost use Rattle.machine_safe.specs.Safe.{IsSafe};
ghost use Rattle.runner.specs.MadeText.{is_accept, is_finish, effects_that, summary_of, summary_text};
ghost use Rattle.script_types.specs.Source.{IsWellFormed};
ghost use Rattle.script_types.specs.declared.script.Script.{Script};

use crate::output::Line;
use edge_io::{Failed, Sink, write_whole};
use entry_log::{Effect, Entry};
use itoa::Buffer;
use kcore::ScheduleRun;

/// What a run comes to, in numbers.
#[derive(Clone, Copy)]
pub struct Summary {
    /// The slots of the schedule.
    pub slots: usize,
    /// The entries of the history.
    pub entries: usize,
    /// The messages that were accepted.
    pub accepted: usize,
    /// The messages that were finished.
    pub finished: usize,
    /// The objects that are left.
    pub objects: usize,
}

/// How many messages were accepted, and how many finished.
#[derive(Clone, Copy)]
struct Messages {
    accepted: usize,
    finished: usize,
}

/// Counts the messages that an entry accepts and finishes beside those before it, in one pass over its effects. It is
/// copied into its caller, whose two counts so stay in registers.
#[inline(always)]
fn with_messages_by(before: Messages, entry: &Entry) -> Messages
    requires accepted { before.accepted ≤ 262144 }
    requires finished { before.finished ≤ 262144 }
    ensures accepted { result.accepted ≡ before.accepted + count_by is_accept entry.now.effects }
    ensures finished { result.finished ≡ before.finished + count_by is_finish entry.now.effects }
    ensures few_accepted { result.accepted ≤ before.accepted + 4 }
    ensures few_finished { result.finished ≤ before.finished + 4 }
{
    let effects = entry.effects.as_slice();
    let mut accepted = before.accepted;
    let mut finished = before.finished;
    for effect in effects {
        match effect {
            Effect::Accept(_) => accepted += 1,
            Effect::Finish(..) => finished += 1,
            _ => {}
        }
    }
    Messages { accepted, finished }
}

/// Counts the messages of further entries beside those before them.
#[inline(never)]
fn with_messages_of(before: Messages, entries: &[Entry]) -> Messages
    requires accepted { before.accepted + 4 * length entries.now ≤ 262144 }
    requires finished { before.finished + 4 * length entries.now ≤ 262144 }
    ensures accepted { result.accepted ≡ before.accepted + effects_that is_accept entries.now }
    ensures finished { result.finished ≡ before.finished + effects_that is_finish entries.now }
    ensures few_accepted { result.accepted ≤ before.accepted + 4 * length entries.now }
    ensures few_finished { result.finished ≤ before.finished + 4 * length entries.now }
{
    let mut messages = before;
    for entry in entries {
        messages = with_messages_by(messages, entry);
    }
    messages
}

/// The number of objects that are left after the slots that a run has taken.
fn objects_left(schedule: &ScheduleRun) -> usize
    requires { IsWellFormed schedule.now.script }
    ensures { result ≡ length (final_rows (after schedule.now.script schedule.now.history)) }
{
    let mut objects = 0;
    let mut from = 0;
    while let Some(row) = schedule.next_row(from) {
        objects += 1;
        from = row.object.0 + 1;
    }
    objects
}

/// Runs a schedule of so many slots to its end, and sums it up part by part.
pub fn summary_of(slots: usize, schedule: &mut ScheduleRun) -> Summary
    requires valid { IsWellFormed schedule.old.script }
    requires none { schedule.old.history ≡ [] }
    requires all { schedule.old.left ≡ run schedule.old.script }
    requires some { 0 < schedule.old.size }
    requires slots { slots ≡ length schedule.old.script.slots }
    ensures value { result ≡ summary_of schedule.old.script }
    ensures legal { IsLegal schedule.old.script (run schedule.old.script) }
    ensures safe { IsSafe schedule.old.script (run schedule.old.script) }
{
    let mut entries = 0;
    let mut messages = Messages {
        accepted: 0,
        finished: 0,
    };
    loop {
        schedule.next_part();
        let part = schedule.part();
        if part.is_empty() {
            return Summary {
                slots,
                entries,
                accepted: messages.accepted,
                finished: messages.finished,
                objects: objects_left(schedule),
            };
        }
        entries += part.len();
        messages = with_messages_of(messages, part);
    }
}

/// Adds a label and a number to a line.
fn put_count<const N: usize>(line: &mut Line, label: &[u8; N], count: usize)
    requires { length line.old.items + length label.now + 20 ≤ 512 }
    ensures text { line.new.items ≡ line.old.items ++ (label.now ++ decimal count) }
    ensures short { length line.new.items ≤ length line.old.items + length label.now + 20 }
{
    let mut digits = Buffer::new();
    let _ = line.try_extend_from_slice(label);
    let _ = line.try_extend_from_slice(digits.format(count).as_bytes());
}

/// The line that tells a summary.
fn line_of_summary(summary: Summary) -> Line
    ensures { result.items ≡ summary_text summary }
{
    let mut line = Line::new();
    put_count(&mut line, b"slots ", summary.slots);
    put_count(&mut line, b" entries ", summary.entries);
    put_count(&mut line, b" accepted ", summary.accepted);
    put_count(&mut line, b" finished ", summary.finished);
    put_count(&mut line, b" objects ", summary.objects);
    let _ = line.try_extend_from_slice(b"\n");
    line
}

/// Writes the line that tells a summary.
pub fn write_summary<K: Sink>(sink: &mut K, summary: Summary) -> Result<(), Failed>
    ensures whole { OnOk result (Wrote (K.written sink.old) (K.written sink.new) (summary_text summary)) }
    ensures front { OnErr result (WrotePrefix (K.written sink.old) (K.written sink.new) (summary_text summary)) }
    ensures tells { is_some (K.written sink.new) ≡ is_some (K.written sink.old) }
    ensures fault { OnErr result (Rose (K.faults sink.old) (K.faults sink.new)) }
    ensures never_falls { K.faults sink.old ≤ K.faults sink.new }
{
    write_whole(sink, line_of_summary(summary).as_slice())
}
