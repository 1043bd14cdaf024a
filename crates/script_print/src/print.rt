//! The canonical text of a script.
ghost use Rattle.std.specs.List.{flat_map};
ghost use Rattle.std.specs.Prelude.{◌≡◌, ℕ, List, [], ◌∷◌, ◌++◌, map, IfOk, OnOk};
ghost use Rattle.script_print.specs.CanonicalText.{source_text, source_texts, setting_lines, thread_line, thread_lines, is_same, threads_of, processes_lines, declared_lines, canonical_lines, canonical_text};
ghost use Rattle.script_grammar.specs.Accepted.{IsAccepted};
ghost use Rattle.script_types.specs.Source.{IsWellFormed};
ghost use Rattle.script_types.specs.declared.source_line.SourceLine.TheVariants as line;

use crate::print_bodies::{put_dfcs, put_idfcs, put_irqs, put_queues};
use crate::print_instr::put_instrs;
use crate::print_slots::put_schedule;
use crate::word::{Word, put_line};
use script_types::{ProcessDecl, Script, ThreadDecl};
use script_words::Keyword;
use std::alloc::Global;
use sym_base::NoMemory;

/// Adds the line of the kernel's message pool, where it has slots.
fn put_pool(out: &mut Vec<u8>, pool: u8) -> Result<(), NoMemory>
    ensures { OnOk result (out.new.items ≡ out.old.items ++ source_texts (setting_lines line.Pool pool)) }
{
    if pool == 0 {
        return Ok(());
    }
    put_line(out, Keyword::Pool, &[Word::Number(u64::from(pool))])
}

/// Adds the line of the number of fast mutexes, where there are any.
fn put_fast(out: &mut Vec<u8>, fast: u8) -> Result<(), NoMemory>
    ensures { OnOk result (out.new.items ≡ out.old.items ++ source_texts (setting_lines line.Fast fast)) }
{
    if fast == 0 {
        return Ok(());
    }
    put_line(out, Keyword::Fast, &[Word::Number(u64::from(fast))])
}

/// Adds the line of a thread.
fn put_thread(out: &mut Vec<u8>, thread: &ThreadDecl) -> Result<(), NoMemory>
    ensures { OnOk result (out.new.items ≡ out.old.items ++ source_text (thread_line thread.now.process thread.now)) }
{
    let name = Word::Named(thread.name);
    let priority = Word::Number(u64::from(thread.priority));
    match (thread.process, thread.held) {
        (None, true) => put_line(out, Keyword::Kthread, &[name, priority, Word::Held]),
        (None, false) => put_line(out, Keyword::Kthread, &[name, priority]),
        (Some(_), true) => put_line(out, Keyword::Thread, &[name, priority, Word::Held]),
        (Some(_), false) => put_line(out, Keyword::Thread, &[name, priority]),
    }
}

/// Whether two are the number of one process, or both of none.
fn is_same(one: Option<usize>, other: Option<u8>) -> bool
    ensures { result ≡ is_same one other }
{
    match (one, other) {
        (None, None) => true,
        (Some(one), Some(other)) => one == usize::from(other),
        _ => false,
    }
}

/// Adds the lines of a thread, where it is one of the process of this number, or of none.
fn put_owned(out: &mut Vec<u8>, owner: Option<usize>, thread: &ThreadDecl) -> Result<(), NoMemory>
    ensures { OnOk result (out.new.items ≡ out.old.items ++ source_texts (flat_map thread_lines (threads_of owner (thread.now ∷ [])))) }
{
    if !is_same(owner, thread.process) {
        return Ok(());
    }
    put_thread(out, thread)?;
    put_instrs(out, thread.instrs.as_slice())
}

/// Adds the lines of the threads of the process of this number, or of those of none.
fn put_threads(
    out: &mut Vec<u8>,
    owner: Option<usize>,
    threads: &[ThreadDecl],
) -> Result<(), NoMemory>
    ensures { OnOk result (out.new.items ≡ out.old.items ++ source_texts (flat_map thread_lines (threads_of owner threads.now))) }
{
    for thread in threads {
        put_owned(out, owner, thread)?;
    }
    Ok(())
}

/// Adds the lines of processes and of their threads.
fn put_processes(
    out: &mut Vec<u8>,
    processes: &[ProcessDecl],
    threads: &[ThreadDecl],
) -> Result<(), NoMemory>
    ensures { OnOk result (out.new.items ≡ out.old.items ++ source_texts (processes_lines threads.now 0 processes.now)) }
{
    for (number, process) in processes.iter().enumerate() {
        put_line(out, Keyword::Process, &[Word::Named(process.name)])?;
        put_threads(out, Some(number), threads)?;
    }
    Ok(())
}

/// Adds the line of the version.
fn put_header(out: &mut Vec<u8>, version: u8) -> Result<(), NoMemory>
    ensures { OnOk result (out.new.items ≡ out.old.items ++ source_text (line.Header version)) }
{
    put_line(out, Keyword::Eka2, &[Word::Number(u64::from(version))])
}

/// Adds the lines that declare what a script holds.
fn put_declarations(out: &mut Vec<u8>, script: &Script) -> Result<(), NoMemory>
    ensures { OnOk result (out.new.items ≡ out.old.items ++ source_texts (declared_lines script.now)) }
{
    put_header(out, script.version)?;
    put_pool(out, script.pool)?;
    put_fast(out, script.fast)?;
    put_queues(out, script.queues.as_slice())?;
    put_dfcs(out, script.dfcs.as_slice())?;
    put_idfcs(out, script.idfcs.as_slice())?;
    put_irqs(out, script.irqs.as_slice())?;
    put_threads(out, None, script.threads.as_slice())?;
    put_processes(out, script.processes.as_slice(), script.threads.as_slice())?;
    Ok(())
}

/// Adds the lines of a script.
pub fn put_script(out: &mut Vec<u8>, script: &Script) -> Result<(), NoMemory>
    ensures { OnOk result (out.new.items ≡ out.old.items ++ source_texts (canonical_lines script.now)) }
{
    put_declarations(out, script)?;
    put_schedule(out, script.slots.as_slice())?;
    put_line(out, Keyword::End, &[])?;
    Ok(())
}

/// The canonical text of a script: its lines in the order in which they must stand, with one space
/// between two words, and no line that tells nothing. Neighbouring slots in which the chosen actor acts are
/// one line. It is accepted as the script where any bytes are.
pub fn print_script(alloc: Global, script: &Script) -> Result<Vec<u8>, NoMemory>
    ensures text { IfOk result (λ text. text.items ≡ canonical_text script.now) }
    ensures again { IfOk result (λ text. IsWellFormed script.now → IsAccepted text.items script.now) }
{
    let mut out = Vec::new(alloc);
    put_script(&mut out, script)?;
    Ok(out)
}
