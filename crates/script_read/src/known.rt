//! Whether the lines of the whole file declare what a line names.
ghost use Rattle.std.specs.Prelude.{◌≡◌, IsTrue, List, ◌||◌, codes, decimal};
ghost use Rattle.std.specs.List.{list_all};
ghost use Rattle.std.specs.Str.{bytes_eq};
ghost use Rattle.script_read.specs.FileNames.{Knows, names_something};
ghost use Rattle.script_types.specs.Names.{Declared, is_declared, is_irq_declared, is_known, is_known_instr, is_known_op};

use crate::declarations::{Declarations, has_name};
use script_types::{Context, Instr, Op, SourceLine};
use script_words::is_word;
use sym_base::Name;

/// Whether what an operation names is declared.
fn is_known_op(declarations: &Declarations<'_>, what: &Op) -> bool
    ensures { (file : List Declared) →
        Knows declarations.now file → result ≡ is_known_op file what.now }
{
    match what {
        Op::Idfc(name) => has_name(&declarations.idfcs, name.as_slice()),
        Op::Dfc(name) | Op::Queue(name) => has_name(&declarations.dfcs, name.as_slice()),
        Op::Fssignal(name) => has_name(&declarations.threads, name.as_slice()),
        Op::Device(..) => true,
    }
}

/// Whether what each operation of a body names is declared.
fn are_known_ops(declarations: &Declarations<'_>, body: &[Op]) -> bool
    ensures { (file : List Declared) →
        Knows declarations.now file → result ≡ list_all (is_known_op file) body.now }
{
    for what in body {
        if !is_known_op(declarations, what) {
            return false;
        }
    }
    true
}

/// Whether what an instruction names is declared, and its fast mutex is one of so many.
fn is_known_instr(declarations: &Declarations<'_>, fast: u8, what: &Instr) -> bool
    ensures { (file : List Declared) →
        (IsTrue (names_something (SourceLine.Instr what.now)) → Knows declarations.now file) → result ≡ is_known_instr file fast what.now }
{
    match what {
        Instr::Flock(number) | Instr::Funlock(number) => *number < fast,
        Instr::Fssignal(name) => has_name(&declarations.threads, name.as_slice()),
        Instr::Queue(name) => has_name(&declarations.dfcs, name.as_slice()),
        _ => true,
    }
}

/// Whether a queue of this name is declared. The supervisor has one.
fn is_known_queue(declarations: &Declarations<'_>, name: &Name) -> bool
    ensures { (file : List Declared) → Knows declarations.now file →
        result ≡ (bytes_eq name.now (codes "supervisor") || is_declared file (codes "dfcq") name.now) }
{
    if is_word(name.as_slice(), "supervisor") {
        return true;
    }
    has_name(&declarations.queues, name.as_slice())
}

/// Whether an interrupt has a line before the first `schedule`.
fn is_known_irq(declarations: &Declarations<'_>, number: u8) -> bool
    ensures { (file : List Declared) →
        Knows declarations.now file → result ≡ is_irq_declared file (decimal number) }
{
    declarations.irqs.contains(&number)
}

/// Whether a line names what another line declares.
pub fn names_something(line: &SourceLine) -> bool
    ensures { result ≡ names_something line.now }
{
    match line {
        SourceLine::Dfc(..)
        | SourceLine::Idfc(..)
        | SourceLine::IrqBody(..)
        | SourceLine::IrqSlot(_)
        | SourceLine::Instr(Instr::Fssignal(_))
        | SourceLine::Instr(Instr::Queue(_)) => true,
        _ => false,
    }
}

/// Whether what a line names is declared in the file.
pub fn is_known(declarations: &Declarations<'_>, context: &Context, line: &SourceLine) -> bool
    ensures { (file : List Declared) →
        (IsTrue (names_something line.now) → Knows declarations.now file) → result ≡ is_known file context.now line.now }
{
    match line {
        SourceLine::Dfc(_, queue, _, body) => {
            is_known_queue(declarations, queue) && are_known_ops(declarations, body.as_slice())
        }
        SourceLine::Idfc(_, body) | SourceLine::IrqBody(_, body) => {
            are_known_ops(declarations, body.as_slice())
        }
        SourceLine::Instr(what) => is_known_instr(declarations, context.script.fast, what),
        SourceLine::IrqSlot(number) => is_known_irq(declarations, *number),
        _ => true,
    }
}
