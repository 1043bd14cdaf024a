//! What threads owe.
ghost use Rattle.std.specs.Prelude.{◌≡◌, ◌++◌, OnOk};
ghost use Rattle.machine.specs.Moves.{owed_by_close, owed_use};
ghost use Rattle.machine.specs.Rows.{owing, without_first};

use entry_log::Holder;
use machine::Owed;
use sym_base::{Items, NoMemory, ObjNo, ThreadNo};

/// Adds what a close leaves to do: where the object dies of it, the close of the object's own link,
/// and then the sweep.
fn push_close(
    duties: &mut Items<Owed>,
    dying: bool,
    object: ObjNo,
    link: Option<ObjNo>,
) -> Result<(), NoMemory>
    ensures { OnOk result (duties.new ≡ duties.old ++ owed_by_close dying object link) }
{
    if !dying {
        return Ok(());
    }
    if let Some(linked) = link {
        duties.push(Owed::Close(Holder::Link(object), linked))?;
    }
    duties.push(Owed::Sweep(object))?;
    Ok(())
}

/// A thread owes what a close leaves to do.
pub fn owe_close(
    owed: &mut Items<Items<Owed>>,
    thread: ThreadNo,
    dying: bool,
    object: ObjNo,
    link: Option<ObjNo>,
) -> Result<(), NoMemory>
    ensures { OnOk result (owed.new ≡ owing owed.old thread (owed_by_close dying object link)) }
{
    let at = thread.0 as usize;
    if at < owed.len() {
        let duties = owed.get_mut(at);
        push_close(duties, dying, object, link)?;
    }
    Ok(())
}

/// Adds the close of a temporary reference, where there is one.
fn push_use(duties: &mut Items<Owed>, thread: ThreadNo, uses: Option<ObjNo>) -> Result<(), NoMemory>
    ensures { OnOk result (duties.new ≡ duties.old ++ owed_use thread uses) }
{
    if let Some(object) = uses {
        duties.push(Owed::Close(Holder::Temp(thread), object))?;
    }
    Ok(())
}

/// A thread owes the close of its temporary reference, where it has one.
pub fn owe_use(
    owed: &mut Items<Items<Owed>>,
    thread: ThreadNo,
    uses: Option<ObjNo>,
) -> Result<(), NoMemory>
    ensures { OnOk result (owed.new ≡ owing owed.old thread (owed_use thread uses)) }
{
    let at = thread.0 as usize;
    if at < owed.len() {
        let duties = owed.get_mut(at);
        push_use(duties, thread, uses)?;
    }
    Ok(())
}

/// A thread doesn't owe the oldest of its duties any more.
pub fn drop_first_owed(owed: &mut Items<Items<Owed>>, thread: ThreadNo)
    ensures { owed.new ≡ without_first owed.old thread }
{
    let at = thread.0 as usize;
    if at < owed.len() {
        let duties = owed.get_mut(at);
        let _ = duties.take_first();
    }
}
