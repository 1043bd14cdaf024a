//! What a worker does.
ghost use Rattle.std.specs.Prelude.{◌≡◌, ◌≢◌, None, false};
ghost use Rattle.machine.specs.SharedRun.{IsSharedPart};
ghost use Rattle.turn_lock.specs.Log.{entries_of};
ghost use Rattle.turn_lock.specs.Passes.{caller_of, known_of, sight_of, IsFree};
ghost use Rattle.shared_kernel.specs.Returns.{GaveBackBy, IsFound};
ghost use Rattle.workers.specs.Rested.{IsRested, IsThrough};

use count_rule::Ticket;
use edge_io::Gate;
use shared_kernel::{Drew, Pass, ScheduledKernel};
use std::sync::Wait;
use sym_base::ThreadNo;

/// Opens the object of a ticket, or finds it dead.
fn opened(mut ticket: Ticket) -> Ticket
    requires { ticket.found ≡ None }
    ensures opened { result.found ≢ None }
    ensures slip { result.slip ≡ ticket.slip }
    ensures identity { result.identity ≡ ticket.identity }
{
    let _ = ticket.open();
    ticket
}

/// A ticket opens its object while no turn is held, behind the gate, and then its thread comes back in a turn. It answers the place of the return.
fn open<R: Wait, G: Gate>(
    rt: &R,
    kernel: &ScheduledKernel,
    gate: &G,
    pass: &mut Pass,
    place: u32,
    thread: ThreadNo,
    ticket: Ticket,
) -> u32
    requires free { IsFree kernel.now pass.old }
    requires found { IsFound kernel.now.base (entries_of (known_of pass.old)) thread ticket }
    ensures free { IsFree kernel.now pass.new }
    ensures caller { caller_of pass.new ≡ caller_of pass.old }
    ensures part { IsSharedPart kernel.now.base.script (entries_of (known_of pass.new)) }
    ensures back { GaveBackBy kernel.now.base (sight_of kernel.now pass.old) (sight_of kernel.now pass.new) thread result }
{
    gate.before_open(place);
    kernel.give_back(rt, pass, thread, opened(ticket))
}

/// Draws a slot. What its thread finds is opened and given back. It answers whether a slot was left.
fn take_slot<R: Wait, G: Gate>(rt: &R, kernel: &ScheduledKernel, gate: &G, pass: &mut Pass) -> bool
    requires { IsRested kernel.now pass.old }
    ensures rested { IsRested kernel.now pass.new }
    ensures caller { caller_of pass.new ≡ caller_of pass.old }
    ensures through { result ≡ false → IsThrough kernel.now pass.new }
{
    match kernel.draw(rt, pass) {
        Drew::Entry { .. } => true,
        Drew::Seek {
            place,
            thread,
            ticket,
        } => {
            let _ = open(rt, kernel, gate, pass, place, thread, ticket);
            true
        }
        Drew::NoSlot { .. } => false,
    }
}

/// Draws slots until none is left.
pub(crate) fn work<R: Wait, G: Gate>(
    rt: &R,
    kernel: &ScheduledKernel,
    gate: &G,
    mut pass: Pass,
) -> Pass
    requires { IsRested kernel.now pass }
    ensures through { IsThrough kernel.now result }
    ensures caller { caller_of result ≡ caller_of pass }
{
    for _ in rt.forever() {
        if !take_slot(rt, kernel, gate, &mut pass) {
            return pass;
        }
    }
    unreachable!()
}
