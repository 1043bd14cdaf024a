//! The lines of instructions.
ghost use Rattle.std.specs.Prelude.{◌≡◌, ◌++◌, map, IsTrue, OnOk};
ghost use Rattle.script_print.specs.CanonicalText.{instr_text, source_texts};
ghost use Rattle.script_print.specs.Spelled.{instr_in, are_operands};
ghost use Rattle.script_types.specs.declared.source_line.SourceLine.TheVariants as line;

use crate::word::{Word, put_line};
use script_types::Instr;
use script_words::Keyword;
use sym_base::{Kind, NoMemory, Word as FirstWord};

/// Adds the line of an instruction: its first word, and those of its operands.
fn put_spelled(
    out: &mut Vec<u8>,
    what: Instr,
    first: FirstWord,
    words: &[Word],
) -> Result<(), NoMemory>
    requires instr { what ≡ instr_in first words.now }
    requires kinds { IsTrue (are_operands first words.now) }
    ensures { OnOk result (out.new.items ≡ out.old.items ++ instr_text what) }
{
    put_line(out, Keyword::Instr(first), words)
}

/// The word of an operand.
macro_rules! word {
    (Number, $operand:expr) => { Word::Number(u64::from($operand)) };
    ($kind:ident, $operand:expr) => { Word::$kind($operand) };
}

/// Adds the line of an instruction, whose first word and operands these are. Operands of one kind that
/// follow one another stand together.
macro_rules! put {
    ($out:ident, $what:ident, $first:ident $(, $kind:ident($($operand:expr),+))*) => {
        put_spelled($out, $what, FirstWord::$first, &[$($(word!($kind, $operand)),+),*])
    };
}

/// Adds the line of an instruction. Each form is a row.
#[rattlefmt::skip]
pub fn put_instr(out: &mut Vec<u8>, what: Instr) -> Result<(), NoMemory>
    ensures { OnOk result (out.new.items ≡ out.old.items ++ instr_text what) }
{
    match what {
        Instr::CreateMutex(name, x) => put!(out, what, Create, Kinded(Kind::Mutex), Named(name), Register(x)),
        Instr::CreateSemaphore(name, n, x) => put!(out, what, Create, Kinded(Kind::Semaphore), Named(name), Number(n), Register(x)),
        Instr::Open(kind, name, x) => put!(out, what, Open, Kinded(kind), Named(name), Register(x)),
        Instr::Dup(x, y) => put!(out, what, Dup, Register(x, y)),
        Instr::DupLocal(x, y) => put!(out, what, Duplocal, Register(x, y)),
        Instr::Close(x) => put!(out, what, Close, Register(x)),
        Instr::Lock(x) => put!(out, what, Lock, Register(x)),
        Instr::Unlock(x) => put!(out, what, Unlock, Register(x)),
        Instr::Wait(x) => put!(out, what, Wait, Register(x)),
        Instr::Signal(x) => put!(out, what, Signal, Register(x)),
        Instr::Suspend(x) => put!(out, what, Suspend, Register(x)),
        Instr::Resume(x) => put!(out, what, Resume, Register(x)),
        Instr::Priority(x, level) => put!(out, what, Priority, Register(x), Number(level)),
        Instr::Kill(x, code) => put!(out, what, Kill, Register(x), Code(code)),
        Instr::Terminate(x, code) => put!(out, what, Terminate, Register(x), Code(code)),
        Instr::Panic(x, category, code) => put!(out, what, Panic, Register(x), Named(category), Code(code)),
        Instr::ExitType(x) => put!(out, what, Exittype, Register(x)),
        Instr::Logon(x, y) => put!(out, what, Logon, Register(x), Status(y)),
        Instr::Exit(code) => put!(out, what, Exit, Code(code)),
        Instr::Flock(x) => put!(out, what, Flock, FastMutex(x)),
        Instr::Funlock(x) => put!(out, what, Funlock, FastMutex(x)),
        Instr::Fswait => put!(out, what, Fswait),
        Instr::Fssignal(name) => put!(out, what, Fssignal, Named(name)),
        Instr::Enter => put!(out, what, Enter),
        Instr::Leave => put!(out, what, Leave),
        Instr::Queue(name) => put!(out, what, Queue, Named(name)),
        Instr::Request(x, y) => put!(out, what, Request, DeviceNumber(x), Status(y)),
        Instr::Cancel(x) => put!(out, what, Cancel, DeviceNumber(x)),
        Instr::WaitAny => put!(out, what, Waitany),
        Instr::WaitFor(x) => put!(out, what, Waitfor, Status(x)),
        Instr::Status(x) => put!(out, what, Status, Status(x)),
        Instr::Server(name, x) => put!(out, what, Server, Named(name), Register(x)),
        Instr::Connect(name, slots, x) => put!(out, what, Connect, Named(name), Slotted(slots), Register(x)),
        Instr::Send(x, function, y, args) => put!(out, what, Send, Register(x), Number(function), Status(y),
            Argument(args.0, args.1, args.2, args.3)),
        Instr::Call(x, function, args) => put!(out, what, Call, Register(x), Number(function), Argument(args.0, args.1, args.2, args.3)),
        Instr::Receive(x, y) => put!(out, what, Receive, Register(x), Message(y)),
        Instr::Complete(x, code) => put!(out, what, Complete, Message(x), Code(code)),
        Instr::Function(x) => put!(out, what, Function, Message(x)),
        Instr::Read(x, argument, offset, length, at) => put!(out, what, Read, Message(x), Number(argument, offset, length, at)),
        Instr::Write(x, argument, offset, length, from) => put!(out, what, Write, Message(x), Number(argument, offset, length, from)),
        Instr::Fill(at, length, byte) => put!(out, what, Fill, Number(at, length, byte)),
        Instr::Peek(at) => put!(out, what, Peek, Number(at)),
    }
}

/// Adds the line of each instruction.
#[tactic(auto, unfolding(crate::specs::CanonicalText::instr_text))]
pub fn put_instrs(out: &mut Vec<u8>, instrs: &[Instr]) -> Result<(), NoMemory>
    ensures { OnOk result (out.new.items ≡ out.old.items ++ source_texts (map line.Instr instrs.now)) }
{
    for what in instrs {
        put_instr(out, *what)?;
    }
    Ok(())
}
