//! The choice of the next actor.
ghost use Rattle.state_rows.specs.Nano.{in_place_of};
ghost use Rattle.std.specs.Prelude.{◌≡◌};
ghost use Rattle.machine.specs.Choice.{first_ready, chosen_thread, chosen};

use entry_log::Actor;
use machine::State;
use readings::{Reads, first_of_greatest, wanted_holder};
use sym_base::ThreadNo;

/// The ready thread of greatest priority that has been ready longest; the list has the ready threads in order of arrival.
pub fn first_ready(state: &State, ready: &[ThreadNo]) -> Option<ThreadNo>
    ensures { result ≡ first_ready state.now ready.now }
{
    first_of_greatest(state, ready)
}

/// Who acts in a thread's place: the holder of the fast mutex that it wants, or the thread itself.
fn in_place_of(state: &State, thread: ThreadNo) -> ThreadNo
    ensures { result ≡ in_place_of state.now.synchronization.nano thread }
{
    match wanted_holder(state, thread) {
        Some(holder) => holder,
        None => thread,
    }
}

/// The thread that acts next: the best ready one, or who acts in its place.
fn chosen_thread(state: &State, ready: &[ThreadNo]) -> Actor
    ensures { result ≡ chosen_thread state.now ready.now }
{
    match first_ready(state, ready) {
        Some(thread) => Actor::Thread(in_place_of(state, thread)),
        None => Actor::Idle,
    }
}

/// Who acts next: the immediate queue, where it has an item; else a thread, or nobody.
pub fn chosen(state: &State, ready: &[ThreadNo]) -> Actor
    ensures { result ≡ chosen state.now ready.now }
{
    match state.next_immediate() {
        Some(_) => Actor::Idfc,
        None => chosen_thread(state, ready),
    }
}
