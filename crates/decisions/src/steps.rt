//! The steps and the returns of instructions.
ghost use Rattle.std.specs.Prelude.{◌≡◌, IsTrue, Some};
ghost use Rattle.script_types.specs.Ranges.{is_source_line};
ghost use Rattle.script_types.specs.Shape.{HasRegisters, IsShaped};
ghost use Rattle.script_types.specs.declared.source_line.SourceLine.TheVariants as line;
ghost use Rattle.machine.specs.declared.task.Task.TheVariants as task;
ghost use Rattle.machine.specs.Rows.{thread_of};
ghost use Rattle.machine.specs.Steps.{step_of, return_of, decision_of_row};

use crate::create::{create_mutex_do, create_semaphore_do};
use crate::handles::{close_do, dup_step, duplocal_step, open_return, open_step};
use machine::{Decision, ThreadRow};
use readings::Reads;
use script_types::{Instr, Script};
use server_decisions::{
    call_step, complete_do, connect_return, connect_step, fill_do, function_do, peek_do, read_step,
    receive_step, send_step, server_do, write_step,
};
use step_answers::nothing;
use sym_base::ThreadNo;
use thread_decisions::{
    cancel_do, enter_do, exit_do, exittype_step, flock_step, fssignal_do, fswait_step, funlock_do,
    kill_step, leave_do, lock_step, logon_step, panic_step, priority_step, queue_do, request_do,
    resume_step, signal_step, status_do, suspend_step, terminate_step, unlock_step, wait_step,
    waitany_step, waitfor_step,
};

/// The next step of an instruction. Each form is a row.
#[rattlefmt::skip]
#[tactic(auto, using(crate::proofs::Functions::send_small, crate::proofs::Functions::call_small, crate::proofs::Functions::read_small, crate::proofs::Functions::write_small))]
fn step_of<R: Reads>(decision: &mut Decision, script: &Script, reads: &R, thread: ThreadNo, row: &ThreadRow, instr: &Instr)
    requires shaped { IsShaped script.now }
    requires readable { R.is_readable reads.now }
    requires registers { HasRegisters instr.now }
    requires ranges { IsTrue (is_source_line (line.Instr instr.now)) }
    ensures { decision.new ≡ step_of script.now (R.state reads.now) thread row.now instr.now row.now.part }
{
    match instr {
        Instr::CreateMutex(name, x) => create_mutex_do(decision, reads, thread, row, name, *x),
        Instr::CreateSemaphore(name, count, x) => create_semaphore_do(decision, reads, thread, row, name, *count, *x),
        Instr::Open(kind, name, x) => open_step(decision, reads, thread, row, *kind, name, *x),
        Instr::Dup(x, y) => dup_step(decision, reads, thread, row, *x, *y),
        Instr::DupLocal(x, y) => duplocal_step(decision, reads, thread, row, *x, *y),
        Instr::Close(x) => close_do(decision, reads, thread, row, *x),
        Instr::Lock(x) => lock_step(decision, reads, thread, row, *x),
        Instr::Unlock(x) => unlock_step(decision, reads, thread, row, *x),
        Instr::Wait(x) => wait_step(decision, reads, thread, row, *x),
        Instr::Signal(x) => signal_step(decision, reads, thread, row, *x),
        Instr::Flock(fast) => flock_step(decision, reads, thread, *fast, row.part),
        Instr::Funlock(fast) => funlock_do(decision, reads, thread, *fast),
        Instr::Fswait => fswait_step(decision, reads, thread, row.part),
        Instr::Fssignal(name) => fssignal_do(decision, reads, thread, name),
        Instr::Enter => enter_do(decision, thread),
        Instr::Leave => leave_do(decision, reads, thread),
        Instr::Queue(name) => queue_do(decision, script, reads, thread, name),
        Instr::Suspend(x) => suspend_step(decision, reads, thread, row, *x),
        Instr::Resume(x) => resume_step(decision, reads, thread, row, *x),
        Instr::Priority(x, priority) => priority_step(decision, reads, thread, row, *x, *priority),
        Instr::Kill(x, reason) => kill_step(decision, reads, thread, row, *x, *reason),
        Instr::Terminate(x, reason) => terminate_step(decision, reads, thread, row, *x, *reason),
        Instr::Panic(x, category, reason) => panic_step(decision, reads, thread, row, *x, *category, *reason),
        Instr::ExitType(x) => exittype_step(decision, reads, thread, row, *x),
        Instr::Logon(x, status) => logon_step(decision, reads, thread, row, *x, *status),
        Instr::Exit(reason) => exit_do(decision, reads, thread, *reason),
        Instr::Request(device, status) => request_do(decision, reads, thread, *device, *status),
        Instr::Cancel(device) => cancel_do(decision, reads, thread, *device),
        Instr::WaitAny => waitany_step(decision, reads, thread, row.part),
        Instr::WaitFor(status) => waitfor_step(decision, reads, thread, *status, row.part),
        Instr::Status(status) => status_do(decision, reads, thread, *status),
        Instr::Server(name, x) => server_do(decision, reads, thread, name, *x),
        Instr::Connect(name, slots, x) => connect_step(decision, reads, thread, row, name, *slots, *x),
        Instr::Send(x, function, status, args) => send_step(decision, reads, thread, row, *x, *function, *status, args),
        Instr::Call(x, function, args) => call_step(decision, reads, thread, row, *x, *function, args),
        Instr::Receive(x, y) => receive_step(decision, reads, thread, row, *x, *y),
        Instr::Complete(x, code) => complete_do(decision, reads, thread, row, *x, *code),
        Instr::Function(x) => function_do(decision, reads, thread, row, *x),
        Instr::Read(x, arg, offset, length, at) => read_step(decision, reads, thread, row, *x, *arg, *offset, *length, *at),
        Instr::Write(x, arg, offset, length, from) => write_step(decision, reads, thread, row, *x, *arg, *offset, *length, *from),
        Instr::Fill(at, length, byte) => fill_do(decision, thread, row, *at, *length, *byte),
        Instr::Peek(at) => peek_do(decision, reads, thread, row, *at),
    }
}

/// The return of an instruction that found an object.
pub fn return_of<R: Reads>(
    decision: &mut Decision,
    reads: &R,
    thread: ThreadNo,
    row: &ThreadRow,
    instr: &Instr,
)
    ensures { decision.new ≡ return_of (R.state reads.now) thread row.now instr.now }
{
    match instr {
        Instr::Open(_, _, _) => open_return(decision, reads, thread, row),
        Instr::Connect(_, _, _) => connect_return(decision, reads, thread, row),
        _ => nothing(decision),
    }
}

/// The next step of an instruction that a thread is at. Nothing, where there is no such thread.
pub fn decide_step<R: Reads>(
    decision: &mut Decision,
    script: &Script,
    reads: &R,
    thread: ThreadNo,
    instr: &Instr,
)
    requires shaped { IsShaped script.now }
    requires readable { R.is_readable reads.now }
    requires registers { HasRegisters instr.now }
    requires ranges { IsTrue (is_source_line (line.Instr instr.now)) }
    ensures { let S = R.state reads.now in decision.new ≡ decision_of_row script.now S thread (thread_of S thread) (Some (task.Step instr.now)) }
{
    match reads.thread(thread) {
        Some(row) => step_of(decision, script, reads, thread, row, instr),
        None => nothing(decision),
    }
}
