//! The command as a whole.
ghost use Rattle.std.specs.Prelude.{◌≡◌, ◌≢◌, ◌↔◌, ◌+◌, ℕ, map};
ghost use Rattle.std.specs.String.{string_bytes};
ghost use Rattle.edge_io.specs.Faults.{Rose};
ghost use Rattle.eka2_app.specs.Outcomes.{CheckedHistory, RanScript, RanShared, WroteText};
ghost use Rattle.eka2_app.specs.Readings.{IsReading, most_bytes};
ghost use Rattle.runner.specs.Complete.{Stayed};
ghost use Rattle.runner.specs.Inputs.{Took, TookAtMost};
ghost use Rattle.runner.specs.MadeText.{made_text, load_text};
ghost use Rattle.runner.specs.RunText.{run_text, brief_text};

use crate::status::Status;
use crate::words::{Command, command_of};
use edge_io::{Gate, Sink, Source};
use runner::{run_brief, run_check, run_load, run_schedule, run_shared, write_made};
use std::alloc::Global;
use std::sync::Wait;
use std::thread::Threads;

/// Does what the words behind the program's name ask for. `run` and `brief` read a script from the source and write
/// its history to the sink, in whole or in brief. `share`, with a number of workers, lets these run the script and writes
/// their history; they pass the gate before each open outside the kernel's lock. `check` reads a script and a history behind
/// it, and writes whether that is legal. `make` and `load`, with a seed and a size, make a script, and write it or what its
/// run comes to. All other words are Usage. What is said of the input holds where the source tells its bytes, and what is
/// said of the text where the sink does. Under `share` it waits for the workers, and no clause says that it returns.
pub fn eka2_main<R: Threads + Wait + Sync, S: Source, K: Sink, G: Gate + Sync>(
    rt: &R,
    alloc: Global,
    words: &[String],
    source: &mut S,
    sink: &mut K,
    gate: &G,
) -> Status
    // Usage exactly where the words are no command, and then nothing is touched.
    ensures usage { (result ≡ Status.Usage) ↔ ((command : Command) → ¬ IsReading (map string_bytes words.now) command) }
    ensures source_untouched { result ≡ Status.Usage → source.new ≡ source.old }
    ensures sink_untouched { result ≡ Status.Usage → sink.new ≡ sink.old }

    // What each command does.
    ensures run { IsReading (map string_bytes words.now) Command.Run
        → RanScript run_text (S.left source.old) (S.left source.new) (K.written sink.old) (K.written sink.new)
        (Stayed (S.faults source.old) (S.faults source.new)) (Stayed (K.faults sink.old) (K.faults sink.new)) result }
    ensures brief { IsReading (map string_bytes words.now) Command.Brief
        → RanScript brief_text (S.left source.old) (S.left source.new) (K.written sink.old) (K.written sink.new)
        (Stayed (S.faults source.old) (S.faults source.new)) (Stayed (K.faults sink.old) (K.faults sink.new)) result }
    ensures share { (workers : ℕ) → IsReading (map string_bytes words.now) (Command.Share workers)
        → RanShared (S.left source.old) (S.left source.new) (K.written sink.old) (K.written sink.new)
        (Stayed (S.faults source.old) (S.faults source.new)) (Stayed (K.faults sink.old) (K.faults sink.new)) result }
    ensures check { IsReading (map string_bytes words.now) Command.Check
        → CheckedHistory (S.left source.old) (S.left source.new) (K.written sink.old) (K.written sink.new)
        (Stayed (S.faults source.old) (S.faults source.new)) (Stayed (K.faults sink.old) (K.faults sink.new)) result }
    ensures make { (seed : ℕ) → (size : ℕ) → IsReading (map string_bytes words.now) (Command.Make seed size)
        → WroteText (made_text seed size) (K.written sink.old) (K.written sink.new) (Stayed (K.faults sink.old) (K.faults sink.new)) result }
    ensures make_reads_nothing { (seed : ℕ) → (size : ℕ) → IsReading (map string_bytes words.now) (Command.Make seed size)
        → source.new ≡ source.old }
    ensures load { (seed : ℕ) → (size : ℕ) → IsReading (map string_bytes words.now) (Command.Load seed size)
        → WroteText (load_text seed size) (K.written sink.old) (K.written sink.new) (Stayed (K.faults sink.old) (K.faults sink.new)) result }
    ensures load_reads_nothing { (seed : ℕ) → (size : ℕ) → IsReading (map string_bytes words.now) (Command.Load seed size)
        → source.new ≡ source.old }

    // TooLarge exactly if more bytes were taken than the command reads.
    ensures large { (command : Command) → IsReading (map string_bytes words.now) command → result ≡ Status.TooLarge
        → Took (most_bytes command + 1) (S.left source.old) (S.left source.new) }
    ensures few { (command : Command) → IsReading (map string_bytes words.now) command → result ≢ Status.TooLarge
        → TookAtMost (most_bytes command) (S.left source.old) (S.left source.new) }

    // A fault comes only where its count rose.
    ensures read_fault { result ≡ Status.ReadFault → Rose (S.faults source.old) (S.faults source.new) }
    ensures write_fault { result ≡ Status.WriteFault → Rose (K.faults sink.old) (K.faults sink.new) }

    // After these nothing was written.
    ensures read_silent { result ≡ Status.ReadFault → K.written sink.new ≡ K.written sink.old }
    ensures large_silent { result ≡ Status.TooLarge → K.written sink.new ≡ K.written sink.old }
    ensures memory_silent { result ≡ Status.NoMemory → K.written sink.new ≡ K.written sink.old }
{
    let Some(command) = command_of(words) else {
        return Status::Usage;
    };
    match command {
        Command::Run => Status::of(run_schedule(alloc, source, sink)),
        Command::Brief => Status::of(run_brief(alloc, source, sink)),
        Command::Share { workers } => {
            Status::of(run_shared(rt, alloc, workers, source, sink, gate))
        }
        Command::Check => Status::of_check(run_check(alloc, source, sink)),
        Command::Make { seed, size } => Status::of(write_made(alloc, seed, size, sink)),
        Command::Load { seed, size } => Status::of(run_load(alloc, seed, size, sink)),
    }
}
