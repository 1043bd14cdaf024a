//! Instructions: the operands of each word, and the instruction that words are, once their forms and ranges are tested.
ghost use Rattle.std.specs.Prelude.{◌≡◌, false};
ghost use Rattle.script_types.specs.Forms.{instr_operands, instr_of};
ghost use Rattle.script_words.specs.LineAt.{values_at, instr_at};
ghost use Rattle.script_words.specs.Operands.{AreOf};
ghost use Rattle.script_words.specs.Pieces.{pieces};

use crate::operand::{
    address_at, argument_at, byte_at, code_at, item_at, kind_at, name_at, number_at, register_at,
    size_at, slots_at, small_at,
};
use crate::shared_operands::{
    ARGUMENT, CODE, COUNT, DEVICE, FAST_MUTEX, MESSAGE, NAME, PRIORITY, REGISTER, SIZE, STATUS,
};
use script_types::{Args, Instr, Operand};
use sym_base::Word;

/// The operands behind an instruction's word. The second `create` makes a semaphore.
pub fn instr_operands(word: Word, second: bool) -> &'static [Operand]
    ensures { result.now ≡ instr_operands word second }
{
    match word {
        Word::Create if second => &[Operand::Semaphore, NAME, COUNT, REGISTER],
        Word::Create => &[Operand::Mutex, NAME, REGISTER],
        Word::Open => &[Operand::Kind, NAME, REGISTER],
        Word::Dup | Word::Duplocal => &[REGISTER, REGISTER],
        Word::Close
        | Word::Lock
        | Word::Unlock
        | Word::Wait
        | Word::Signal
        | Word::Suspend
        | Word::Resume
        | Word::Exittype => &[REGISTER],
        Word::Priority => &[REGISTER, PRIORITY],
        Word::Kill | Word::Terminate => &[REGISTER, CODE],
        Word::Panic => &[REGISTER, Operand::Category, CODE],
        Word::Logon => &[REGISTER, STATUS],
        Word::Exit => &[CODE],
        Word::Flock | Word::Funlock => &[FAST_MUTEX],
        Word::Fswait | Word::Enter | Word::Leave | Word::Waitany => &[],
        Word::Fssignal | Word::Queue => &[NAME],
        Word::Request => &[DEVICE, STATUS],
        Word::Cancel => &[DEVICE],
        Word::Waitfor | Word::Status => &[STATUS],
        Word::Server => &[NAME, REGISTER],
        Word::Connect => &[NAME, Operand::Slots, REGISTER],
        Word::Send => &[
            REGISTER, COUNT, STATUS, ARGUMENT, ARGUMENT, ARGUMENT, ARGUMENT,
        ],
        Word::Call => &[REGISTER, COUNT, ARGUMENT, ARGUMENT, ARGUMENT, ARGUMENT],
        Word::Receive => &[REGISTER, MESSAGE],
        Word::Complete => &[MESSAGE, CODE],
        Word::Function => &[MESSAGE],
        Word::Read | Word::Write => &[MESSAGE, Operand::Number(0, 3), SIZE, SIZE, SIZE],
        Word::Fill => &[SIZE, SIZE, Operand::Number(0, 255)],
        Word::Peek => &[Operand::Number(0, 1_023)],
    }
}

/// The instruction that the table of forms makes of this word and of the words behind it.
#[tactic(auto, unfolding(crate::specs::LineAt::instr_at))]
fn made(word: Word, second: bool, words: &[&[u8]], what: Instr) -> Instr
    requires { what ≡ instr_of word second (values_at (instr_operands word second) (pieces words.now) 1) }
    ensures { result ≡ instr_at word second (pieces words.now) }
{
    what
}

/// The instruction of a word, whose operands are read at these places.
macro_rules! made {
    ($first:ident, $second:expr, $words:ident, $variant:ident $(($($read:ident($at:expr $(, $last:expr)?)),*))?) => {
        made(Word::$first, $second, $words, Instr::$variant $(($($read($words, $at $(, $last)?)),*))?)
    };
}

/// A message that is sent, with the status to be completed.
#[tactic(auto, unfolding(crate::specs::LineAt::instr_at))]
fn sent(words: &[&[u8]], second: bool) -> Instr
    requires { AreOf (instr_operands Word.Send second) (pieces words.now) 1 }
    ensures { result ≡ instr_at Word.Send second (pieces words.now) }
{
    let function = number_at(words, 2, 2_147_483_647);
    let args = Args(
        argument_at(words, 4),
        argument_at(words, 5),
        argument_at(words, 6),
        argument_at(words, 7),
    );
    Instr::Send(register_at(words, 1), function, item_at(words, 3), args)
}

/// A message whose completion is waited for.
#[tactic(auto, unfolding(crate::specs::LineAt::instr_at))]
fn called(words: &[&[u8]], second: bool) -> Instr
    requires { AreOf (instr_operands Word.Call second) (pieces words.now) 1 }
    ensures { result ≡ instr_at Word.Call second (pieces words.now) }
{
    let function = number_at(words, 2, 2_147_483_647);
    let args = Args(
        argument_at(words, 3),
        argument_at(words, 4),
        argument_at(words, 5),
        argument_at(words, 6),
    );
    Instr::Call(register_at(words, 1), function, args)
}

/// The instruction that words are whose first is this one, by the same table. Each form is a row.
#[rattlefmt::skip]
pub fn instruction_at(word: Word, second: bool, words: &[&[u8]]) -> Instr
    requires { AreOf (instr_operands word second) (pieces words.now) 1 }
    ensures { result ≡ instr_at word second (pieces words.now) }
{
    match word {
        Word::Create if second => made!(Create, true, words, CreateSemaphore(name_at(2), number_at(3, 2_147_483_647), register_at(4))),
        Word::Create => made!(Create, false, words, CreateMutex(name_at(2), register_at(3))),
        Word::Open => made!(Open, second, words, Open(kind_at(1), name_at(2), register_at(3))),
        Word::Dup => made!(Dup, second, words, Dup(register_at(1), register_at(2))),
        Word::Duplocal => made!(Duplocal, second, words, DupLocal(register_at(1), register_at(2))),
        Word::Close => made!(Close, second, words, Close(register_at(1))),
        Word::Lock => made!(Lock, second, words, Lock(register_at(1))),
        Word::Unlock => made!(Unlock, second, words, Unlock(register_at(1))),
        Word::Wait => made!(Wait, second, words, Wait(register_at(1))),
        Word::Signal => made!(Signal, second, words, Signal(register_at(1))),
        Word::Suspend => made!(Suspend, second, words, Suspend(register_at(1))),
        Word::Resume => made!(Resume, second, words, Resume(register_at(1))),
        Word::Priority => made!(Priority, second, words, Priority(register_at(1), small_at(2, 63))),
        Word::Kill => made!(Kill, second, words, Kill(register_at(1), code_at(2))),
        Word::Terminate => made!(Terminate, second, words, Terminate(register_at(1), code_at(2))),
        Word::Panic => made!(Panic, second, words, Panic(register_at(1), name_at(2), code_at(3))),
        Word::Exittype => made!(Exittype, second, words, ExitType(register_at(1))),
        Word::Logon => made!(Logon, second, words, Logon(register_at(1), item_at(2))),
        Word::Exit => made!(Exit, second, words, Exit(code_at(1))),
        Word::Flock => made!(Flock, second, words, Flock(item_at(1))),
        Word::Funlock => made!(Funlock, second, words, Funlock(item_at(1))),
        Word::Fswait => made!(Fswait, second, words, Fswait),
        Word::Fssignal => made!(Fssignal, second, words, Fssignal(name_at(1))),
        Word::Enter => made!(Enter, second, words, Enter),
        Word::Leave => made!(Leave, second, words, Leave),
        Word::Queue => made!(Queue, second, words, Queue(name_at(1))),
        Word::Request => made!(Request, second, words, Request(item_at(1), item_at(2))),
        Word::Cancel => made!(Cancel, second, words, Cancel(item_at(1))),
        Word::Waitany => made!(Waitany, second, words, WaitAny),
        Word::Waitfor => made!(Waitfor, second, words, WaitFor(item_at(1))),
        Word::Status => made!(Status, second, words, Status(item_at(1))),
        Word::Server => made!(Server, second, words, Server(name_at(1), register_at(2))),
        Word::Connect => made!(Connect, second, words, Connect(name_at(1), slots_at(2), register_at(3))),
        Word::Send => sent(words, second),
        Word::Call => called(words, second),
        Word::Receive => made!(Receive, second, words, Receive(register_at(1), register_at(2))),
        Word::Complete => made!(Complete, second, words, Complete(register_at(1), code_at(2))),
        Word::Function => made!(Function, second, words, Function(register_at(1))),
        Word::Read => made!(Read, second, words, Read(register_at(1), small_at(2, 3), size_at(3), size_at(4), size_at(5))),
        Word::Write => made!(Write, second, words, Write(register_at(1), small_at(2, 3), size_at(3), size_at(4), size_at(5))),
        Word::Fill => made!(Fill, second, words, Fill(size_at(1), size_at(2), byte_at(3))),
        Word::Peek => made!(Peek, second, words, Peek(address_at(1))),
    }
}
