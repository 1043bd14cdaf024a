//! A script with each form of line, as its text and as its value.
use script_types::{Args, Instr, Op, Script, Slot, ThreadDecl};
use sym_base::{Arg, Kind, Name, Slots};

/// The canonical text of a script with every declaration, every form of instruction and every slot, and with the ends
/// of their ranges.
pub const EVERY_FORM: &str =
    "eka2 1\npool 255\nfast 16\ndfcq low 0\ndfcq high 63\ndfc work low 0 fssignal k ; device d0 -2147483646 ; device d15 2147483647 ; queue last\ndfc last supervisor 7 queue work\nidfc soon fssignal low\nirq 0 idfc soon\nirq 31 dfc work ; idfc soon\nkthread k 0\nflock f0\nfunlock f15\nfswait\nfssignal high\nenter\nleave\nqueue last\nkthread l 63 held\nprocess p\nthread a 0\ncreate mutex m r0\ncreate semaphore s 0 r7\ncreate semaphore abcdefghijklmn_9 2147483647 r1\nopen process p r2\nopen thread k r3\nopen mutex m r4\nopen semaphore s r5\ndup r6 r7\nduplocal r0 r1\nclose r2\nlock r3\nunlock r4\nwait r5\nsignal r6\nthread b 63 held\nsuspend r0\nresume r1\npriority r2 0\npriority r3 63\nkill r4 -2147483646\nterminate r5 2147483647\npanic r6 E32USER-CBase_69 0\nexittype r7\nlogon r0 s15\nexit -1\nprocess q\nthread c 1\nrequest d0 s15\ncancel d15\nwaitany\nwaitfor s0\nstatus s1\nserver files r2\nconnect files 1 r3\nconnect files 255 r4\nconnect files pool r5\nsend r6 0 s2 -2147483648 2147483647 d:0:1:2 d:1024:1023:1022\ncall r7 2147483647 0 -1 d:3:4:5 6\nthread d 2\nreceive r0 m7\ncomplete m1 -2147483646\nfunction m2\nread m3 0 0 1024 1\nwrite m4 3 1024 0 2\nfill 0 1024 255\nfill 1024 0 0\npeek 0\npeek 1023\nschedule\ngo 1\nirq 0\ntick\nirq 31\ngo 65532\nend\n";

fn is(name: &Name, text: &str) -> bool {
    name.as_slice() == text.as_bytes()
}

fn is_thread(
    thread: &ThreadDecl,
    text: &str,
    priority: u8,
    held: bool,
    process: Option<u8>,
) -> bool {
    is(&thread.name, text)
        && thread.priority == priority
        && thread.held == held
        && thread.process == process
}

fn are_queues(script: &Script) -> bool {
    match script.queues.as_slice() {
        [low, high] => {
            is(&low.name, "low")
                && low.priority == 0
                && is(&high.name, "high")
                && high.priority == 63
        }
        _ => false,
    }
}

fn are_calls(script: &Script) -> bool {
    match script.dfcs.as_slice() {
        [work, last] => {
            is(&work.name, "work")
                && is(&work.queue, "low")
                && work.priority == 0
                && is(&last.name, "last")
                && is(&last.queue, "supervisor")
                && last.priority == 7
                && is_first_body(work.body.as_slice())
                && matches!(last.body.as_slice(), [Op::Queue(call)] if is(call, "work"))
        }
        _ => false,
    }
}

fn is_first_body(ops: &[Op]) -> bool {
    match ops {
        [
            Op::Fssignal(thread),
            Op::Device(0, -2_147_483_646),
            Op::Device(15, 2_147_483_647),
            Op::Queue(call),
        ] => { is(thread, "k") && is(call, "last") }
        _ => false,
    }
}

fn are_immediate_calls(script: &Script) -> bool {
    match script.idfcs.as_slice() {
        [soon] => {
            is(&soon.name, "soon")
                && matches!(soon.body.as_slice(), [Op::Fssignal(thread)] if is(thread, "low"))
        }
        _ => false,
    }
}

fn are_interrupts(script: &Script) -> bool {
    match script.irqs.as_slice() {
        [first, last] => {
            first.number == 0
                && last.number == 31
                && matches!(first.body.as_slice(), [Op::Idfc(call)] if is(call, "soon"))
                && matches!(last.body.as_slice(), [Op::Dfc(one), Op::Idfc(other)] if is(one, "work") && is(other, "soon"))
        }
        _ => false,
    }
}

fn are_processes(script: &Script) -> bool {
    match script.processes.as_slice() {
        [one, other] => is(&one.name, "p") && is(&other.name, "q"),
        _ => false,
    }
}

/// Whether an instruction is that of this place among those of the kernel thread.
fn is_of_kernel(place: usize, what: &Instr) -> bool {
    match place {
        0 => matches!(what, Instr::Flock(0)),
        1 => matches!(what, Instr::Funlock(15)),
        2 => matches!(what, Instr::Fswait),
        3 => matches!(what, Instr::Fssignal(thread) if is(thread, "high")),
        4 => matches!(what, Instr::Enter),
        5 => matches!(what, Instr::Leave),
        _ => matches!(what, Instr::Queue(call) if is(call, "last")),
    }
}

/// Among those on handles.
fn is_of_handles(place: usize, what: &Instr) -> bool {
    match place {
        0 => matches!(what, Instr::CreateMutex(name, 0) if is(name, "m")),
        1 => matches!(what, Instr::CreateSemaphore(name, 0, 7) if is(name, "s")),
        2 =>
            matches!(what, Instr::CreateSemaphore(name, 2_147_483_647, 1) if is(name, "abcdefghijklmn_9")),
        3 => matches!(what, Instr::Open(Kind::Process, name, 2) if is(name, "p")),
        4 => matches!(what, Instr::Open(Kind::Thread, name, 3) if is(name, "k")),
        5 => matches!(what, Instr::Open(Kind::Mutex, name, 4) if is(name, "m")),
        6 => matches!(what, Instr::Open(Kind::Semaphore, name, 5) if is(name, "s")),
        7 => matches!(what, Instr::Dup(6, 7)),
        8 => matches!(what, Instr::DupLocal(0, 1)),
        9 => matches!(what, Instr::Close(2)),
        10 => matches!(what, Instr::Lock(3)),
        11 => matches!(what, Instr::Unlock(4)),
        12 => matches!(what, Instr::Wait(5)),
        _ => matches!(what, Instr::Signal(6)),
    }
}

/// Among those on threads.
fn is_of_threads(place: usize, what: &Instr) -> bool {
    match place {
        0 => matches!(what, Instr::Suspend(0)),
        1 => matches!(what, Instr::Resume(1)),
        2 => matches!(what, Instr::Priority(2, 0)),
        3 => matches!(what, Instr::Priority(3, 63)),
        4 => matches!(what, Instr::Kill(4, -2_147_483_646)),
        5 => matches!(what, Instr::Terminate(5, 2_147_483_647)),
        6 => matches!(what, Instr::Panic(6, category, 0) if is(category, "E32USER-CBase_69")),
        7 => matches!(what, Instr::ExitType(7)),
        8 => matches!(what, Instr::Logon(0, 15)),
        _ => matches!(what, Instr::Exit(-1)),
    }
}

fn is_described(argument: Arg, from: u16, size: u16, most: u16) -> bool {
    match argument {
        Arg::Descriptor {
            offset,
            length,
            max,
        } => offset == from && length == size && max == most,
        Arg::Number(_) => false,
    }
}

fn are_sent(args: &Args) -> bool {
    matches!(args.0, Arg::Number(-2_147_483_648))
        && matches!(args.1, Arg::Number(2_147_483_647))
        && is_described(args.2, 0, 1, 2)
        && is_described(args.3, 1024, 1023, 1022)
}

fn are_called(args: &Args) -> bool {
    matches!(args.0, Arg::Number(0))
        && matches!(args.1, Arg::Number(-1))
        && is_described(args.2, 3, 4, 5)
        && matches!(args.3, Arg::Number(6))
}

/// Among those of a client.
fn is_of_client(place: usize, what: &Instr) -> bool {
    match place {
        0 => matches!(what, Instr::Request(0, 15)),
        1 => matches!(what, Instr::Cancel(15)),
        2 => matches!(what, Instr::WaitAny),
        3 => matches!(what, Instr::WaitFor(0)),
        4 => matches!(what, Instr::Status(1)),
        5 => matches!(what, Instr::Server(name, 2) if is(name, "files")),
        6 => matches!(what, Instr::Connect(name, Slots::Own(1), 3) if is(name, "files")),
        7 => matches!(what, Instr::Connect(name, Slots::Own(255), 4) if is(name, "files")),
        8 => matches!(what, Instr::Connect(name, Slots::Pool, 5) if is(name, "files")),
        9 => matches!(what, Instr::Send(6, 0, 2, args) if are_sent(args)),
        _ => matches!(what, Instr::Call(7, 2_147_483_647, args) if are_called(args)),
    }
}

/// Among those of a server, and on memory.
fn is_of_server(place: usize, what: &Instr) -> bool {
    match place {
        0 => matches!(what, Instr::Receive(0, 7)),
        1 => matches!(what, Instr::Complete(1, -2_147_483_646)),
        2 => matches!(what, Instr::Function(2)),
        3 => matches!(what, Instr::Read(3, 0, 0, 1024, 1)),
        4 => matches!(what, Instr::Write(4, 3, 1024, 0, 2)),
        5 => matches!(what, Instr::Fill(0, 1024, 255)),
        6 => matches!(what, Instr::Fill(1024, 0, 0)),
        7 => matches!(what, Instr::Peek(0)),
        _ => matches!(what, Instr::Peek(1023)),
    }
}

/// Whether an instruction is that of this place in the thread of this number.
fn is_instruction(thread: usize, place: usize, what: &Instr) -> bool {
    match thread {
        0 => is_of_kernel(place, what),
        2 => is_of_handles(place, what),
        3 => is_of_threads(place, what),
        4 => is_of_client(place, what),
        5 => is_of_server(place, what),
        _ => false,
    }
}

/// Whether a thread, that of this number, has so many instructions, and which.
fn has_instructions(number: usize, thread: &ThreadDecl, count: usize) -> bool {
    thread.instrs.len() == count
        && thread
            .instrs
            .as_slice()
            .iter()
            .enumerate()
            .all(|(place, what)| is_instruction(number, place, what))
}

fn are_threads(script: &Script) -> bool {
    match script.threads.as_slice() {
        [k, l, a, b, c, d] => {
            is_thread(k, "k", 0, false, None)
                && is_thread(l, "l", 63, true, None)
                && is_thread(a, "a", 0, false, Some(0))
                && is_thread(b, "b", 63, true, Some(0))
                && is_thread(c, "c", 1, false, Some(1))
                && is_thread(d, "d", 2, false, Some(1))
        }
        _ => false,
    }
}

/// Whether the threads have so many instructions, and which.
fn are_instructions(script: &Script) -> bool {
    match script.threads.as_slice() {
        [k, l, a, b, c, d] => {
            has_instructions(0, k, 7)
                && has_instructions(1, l, 0)
                && has_instructions(2, a, 14)
                && has_instructions(3, b, 10)
                && has_instructions(4, c, 11)
                && has_instructions(5, d, 9)
        }
        _ => false,
    }
}

fn are_slots(slots: &[Slot]) -> bool {
    match slots {
        [Slot::Go, Slot::Irq(0), Slot::Tick, Slot::Irq(31), rest @ ..] => {
            rest.len() == 65_532 && rest.iter().all(|slot| matches!(slot, Slot::Go))
        }
        _ => false,
    }
}

/// Whether a script is the one of the text.
pub fn is_every_form(script: &Script) -> bool {
    script.version == 1
        && script.pool == 255
        && script.fast == 16
        && are_queues(script)
        && are_calls(script)
        && are_immediate_calls(script)
        && are_interrupts(script)
        && are_processes(script)
        && are_threads(script)
        && are_instructions(script)
        && are_slots(script.slots.as_slice())
}
