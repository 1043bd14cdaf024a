//! Lists by number, and lists without an item.
ghost use Rattle.std.specs.Prelude.{◌≡◌, [], ◌∷◌, ◌++◌, IfOk, OnOk, slice_set};
ghost use Rattle.std.specs.List.{slice_index_or};
ghost use Rattle.machine.specs.Arrivals.{unlisted};

use std::alloc::Global;
use sym_base::{Items, NoMemory, ObjNo, ThreadNo};

/// The list without a thread.
pub fn unlisted(
    alloc: Global,
    thread: ThreadNo,
    list: &[ThreadNo],
) -> Result<Vec<ThreadNo>, NoMemory>
    ensures { IfOk result (λ rest. rest.items ≡ unlisted thread list.now) }
{
    let mut rest = Vec::new(alloc);
    for other in list {
        if other.0 == thread.0 {
            continue;
        }
        rest.push(*other)?;
    }
    Ok(rest)
}

/// The list of a number, empty past the last number.
pub fn list_of<T: Copy>(lists: &Items<Items<T>>, number: ObjNo) -> &[T]
    ensures { result.now ≡ slice_index_or lists.now number.0 [] }
{
    let at = number.0 as usize;
    if at < lists.len() {
        lists.as_slice()[at].as_slice()
    } else {
        &[]
    }
}

/// An object stands last in the list of a number.
pub fn push_to(
    lists: &mut Items<Items<ObjNo>>,
    number: ObjNo,
    object: ObjNo,
) -> Result<(), NoMemory>
    ensures { OnOk result (lists.new ≡ slice_set lists.old number.0 (slice_index_or lists.old number.0 [] ++ object ∷ [])) }
{
    let at = number.0 as usize;
    if at < lists.len() {
        lists.get_mut(at).push(object)?;
    }
    Ok(())
}

/// An object leaves the list of a number.
pub fn remove_from(
    alloc: Global,
    lists: &mut Items<Items<ObjNo>>,
    number: ObjNo,
    object: ObjNo,
) -> Result<(), NoMemory>
    ensures { OnOk result (lists.new ≡ slice_set lists.old number.0 (unlisted object (slice_index_or lists.old number.0 []))) }
{
    let at = number.0 as usize;
    if at < lists.len() {
        let list = lists.get_mut(at);
        *list = Items::new(unlisted(alloc, object, list.as_slice())?);
    }
    Ok(())
}

/// The list of a number is empty.
pub fn clear_list(alloc: Global, lists: &mut Items<Items<ObjNo>>, number: ObjNo)
    ensures { lists.new ≡ slice_set lists.old number.0 [] }
{
    let at = number.0 as usize;
    if at < lists.len() {
        *lists.get_mut(at) = Items::new(Vec::new(alloc));
    }
}
