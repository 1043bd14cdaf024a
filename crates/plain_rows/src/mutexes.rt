//! The mutexes that threads hold, in order of taking.
ghost use Rattle.std.specs.Prelude.{◌≡◌, [], ◌∷◌, OnOk};
ghost use Rattle.machine.specs.LockMoves.{holding, not_holding, taken_by};
ghost use Rattle.machine.specs.Rows.{owing};
ghost use Rattle.state_rows.specs.Locks.{without};
ghost use Rattle.state_rows.specs.declared.duty.Owed.TheVariants.{Close};
ghost use Rattle.entry_log.specs.declared.effect.Holder.TheVariants.{Own};

use crate::lists::{push_to, remove_from};
use entry_log::Holder;
use machine::Owed;
use std::alloc::Global;
use sym_base::{Items, NoMemory, ObjNo, ThreadNo};

/// A thread holds a further mutex, the last that it took.
pub fn set_holding(
    mutexes: &mut Items<Items<ObjNo>>,
    thread: ThreadNo,
    mutex: ObjNo,
) -> Result<(), NoMemory>
    ensures { OnOk result (mutexes.new ≡ holding mutexes.old thread mutex) }
{
    push_to(mutexes, thread, mutex)
}

/// A thread doesn't hold a mutex any more.
fn set_not_holding(
    alloc: Global,
    mutexes: &mut Items<Items<ObjNo>>,
    thread: ThreadNo,
    mutex: ObjNo,
) -> Result<(), NoMemory>
    ensures { OnOk result (mutexes.new ≡ not_holding mutexes.old thread mutex) }
{
    remove_from(alloc, mutexes, thread, mutex)
}

/// A thread owes the close of its ownership of a mutex.
pub fn owe_own(
    owed: &mut Items<Items<Owed>>,
    thread: ThreadNo,
    mutex: ObjNo,
) -> Result<(), NoMemory>
    ensures { OnOk result (owed.new ≡ owing owed.old thread (Close (Own thread) mutex ∷ [])) }
{
    let at = thread.0 as usize;
    if at < owed.len() {
        owed.get_mut(at)
            .push(Owed::Close(Holder::Own(thread), mutex))?;
    }
    Ok(())
}

/// A thread doesn't hold a mutex any more, and this waiter holds it, where there is one.
pub fn give_up(
    alloc: Global,
    mutexes: &mut Items<Items<ObjNo>>,
    thread: ThreadNo,
    mutex: ObjNo,
    waiter: Option<ThreadNo>,
) -> Result<(), NoMemory>
    ensures { OnOk result (mutexes.new ≡ taken_by waiter mutex (not_holding mutexes.old thread mutex)) }
{
    set_not_holding(alloc, mutexes, thread, mutex)?;
    match waiter {
        Some(waiter) => set_holding(mutexes, waiter, mutex),
        None => Ok(()),
    }
}
