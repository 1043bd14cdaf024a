//! What a caller does who shares a kernel: each call is a turn of its own, and what was found is opened with no turn held.
ghost use Rattle.std.specs.Prelude.{◌≡◌, List, None, IfSome};
ghost use Rattle.sym_base.specs.declared.number.ObjNo.{ObjNo};
ghost use Rattle.turn_lock.specs.Log.{entries_of};
ghost use Rattle.turn_lock.specs.Passes.{caller_of, known_of, IsFree};
ghost use Rattle.shared_kernel.specs.declared.base.KernelBase.{KernelBase};
ghost use Rattle.shared_kernel.specs.Returns.{IsFound, IsOpened};

use count_rule::Ticket;
use entry_log::Entry;
use ref_words::Found;
use shared_kernel::{Did, Pass, SharedKernel};
use std::sync::Wait;
use sym_base::ThreadNo;

/// A thread acts. Whether it made an entry, and found nothing.
pub fn acts<R: Wait>(rt: &R, kernel: &SharedKernel, pass: &mut Pass, thread: ThreadNo) -> bool
    requires { IsFree kernel.now pass.old }
    ensures free { IsFree kernel.now pass.new }
    ensures caller { caller_of pass.new ≡ caller_of pass.old }
{
    matches!(kernel.act(rt, pass, thread), Did::Entry { .. })
}

/// A thread acts that is out. Whether it is told that it may not.
pub fn waits<R: Wait>(rt: &R, kernel: &SharedKernel, pass: &mut Pass, thread: ThreadNo) -> bool
    requires { IsFree kernel.now pass.old }
    ensures free { IsFree kernel.now pass.new }
    ensures caller { caller_of pass.new ≡ caller_of pass.old }
{
    matches!(kernel.act(rt, pass, thread), Did::NotAble { .. })
}

/// A thread acts. The thread that made the find, and its ticket, if it found an object.
pub fn finds<R: Wait>(
    rt: &R,
    kernel: &SharedKernel,
    pass: &mut Pass,
    thread: ThreadNo,
) -> Option<(ThreadNo, Ticket)>
    requires { IsFree kernel.now pass.old }
    ensures free { IsFree kernel.now pass.new }
    ensures caller { caller_of pass.new ≡ caller_of pass.old }
    ensures found { IfSome result (λ made. IsFound kernel.now.base (entries_of (known_of pass.new)) made.0 made.1) }
{
    match kernel.act(rt, pass, thread) {
        Did::Seek { thread, ticket, .. } => Some((thread, ticket)),
        _ => None,
    }
}

/// A ticket after it opened its object, or found it dead, and which of both.
pub fn opened(mut ticket: Ticket) -> (Ticket, Found)
    requires { ticket.found ≡ None }
    ensures { (b : KernelBase) → (history : List Entry) → (t : ObjNo) → IsFound b history t ticket → IsOpened b history t result.0 }
{
    let found = ticket.open();
    (ticket, found)
}
