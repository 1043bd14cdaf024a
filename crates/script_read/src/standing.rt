//! Whether a line may stand behind those so far: its kind of thread, its names and its limits.
ghost use Rattle.std.specs.Prelude.{◌≡◌, ◌==◌, ◌||◌, not, IfOk, IsTrue};
ghost use Rattle.std.specs.List.{list_any};
ghost use Rattle.std.specs.Str.{bytes_eq};
ghost use Rattle.script_read.specs.NameNumbers.{lists_name, AddsName, IsNameText, ListsNames};
ghost use Rattle.script_types.specs.Context.{after};
ghost use Rattle.script_types.specs.Names.{has_rank, is_new};
ghost use Rattle.script_types.specs.Stands.{is_kernel_only, is_right_kind};

use crate::name_set::NameSet;
use crate::taken_names::TakenNames;
use script_types::{Context, Instr, IrqBody, SourceLine};
use script_words::is_word;
use sym_base::{Name, NoMemory};

/// Whether an instruction is one of kernel threads alone.
fn is_kernel_only(what: &Instr) -> bool
    ensures { result ≡ is_kernel_only what.now }
{
    match what {
        Instr::Flock(_)
        | Instr::Funlock(_)
        | Instr::Fswait
        | Instr::Fssignal(_)
        | Instr::Enter
        | Instr::Leave
        | Instr::Queue(_) => true,
        _ => false,
    }
}

/// Whether the last line has this rank.
fn has_rank(last: Option<u8>, rank: u8) -> bool
    ensures { result ≡ has_rank last rank }
{
    match last {
        None => false,
        Some(last) => last == rank,
    }
}

/// Whether a line stands in the right kind of thread.
pub fn is_right_kind(context: &Context, line: &SourceLine) -> bool
    ensures { result ≡ is_right_kind context.now line.now }
{
    match line {
        SourceLine::Instr(what) => !is_kernel_only(what) || has_rank(context.rank, 7),
        _ => true,
    }
}

/// Whether an interrupt has a body.
fn has_body(irqs: &[IrqBody], number: u8) -> bool
    ensures { result ≡ list_any (λ irq. irq.number == number) irqs.now }
{
    irqs.iter().any(|irq| irq.number == number)
}

/// Whether a name may be declared: it isn't this one of the kernel's, and none so far is the same. Then it is added.
fn add_name(names: &mut NameSet, of_kernel: &str, name: &Name) -> Result<bool, NoMemory>
    ensures new { IfOk result (λ is_new. is_new ≡ not (bytes_eq name.now of_kernel.now || lists_name names.old name.now)) }
    ensures more { IfOk result (λ is_new. IsTrue is_new → AddsName names.old names.new name.now) }
    ensures text { IsNameText name.now }
{
    if is_word(name.as_slice(), of_kernel) {
        return Ok(false);
    }
    names.insert(name)
}

/// Whether a line declares what no earlier line declared. Its name is added to those of its kind.
pub fn is_new(
    taken: &mut TakenNames,
    context: &Context,
    line: &SourceLine,
) -> Result<bool, NoMemory>
    requires { ListsNames taken.old context.now.script }
    ensures new { IfOk result (λ test. test ≡ is_new context.now line.now) }
    ensures listed { IfOk result (λ test. IsTrue test → ListsNames taken.new (after context.now line.now).script) }
{
    match line {
        SourceLine::Pool(_) => Ok(!has_rank(context.rank, 1)),
        SourceLine::Fast(_) => Ok(!has_rank(context.rank, 2)),
        SourceLine::Queue(name, _) => add_name(&mut taken.threads, "supervisor", name),
        SourceLine::Dfc(name, _, _, _) => taken.dfcs.insert(name),
        SourceLine::Idfc(name, _) => taken.idfcs.insert(name),
        SourceLine::IrqBody(number, _) => Ok(!has_body(context.script.irqs.as_slice(), *number)),
        SourceLine::KernelThread(name, _, _) => add_name(&mut taken.threads, "supervisor", name),
        SourceLine::Process(name) => add_name(&mut taken.processes, "kernel", name),
        SourceLine::Thread(name, _, _) => add_name(&mut taken.threads, "supervisor", name),
        _ => Ok(true),
    }
}
