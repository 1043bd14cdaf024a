//! Lists of lists by object number. A number without a list reads as an empty one.
ghost use Rattle.std.specs.Prelude.{◌≡◌, [], slice_get, slice_index_or};

use sym_base::{Items, ObjNo};

/// The list of a number.
pub fn list_at<T: Copy>(lists: &Items<Items<T>>, number: ObjNo) -> &[T]
    ensures { result.now ≡ slice_index_or lists.now number.0 [] }
{
    let at = number.0 as usize;
    if at < lists.len() {
        lists.as_slice()[at].as_slice()
    } else {
        &[]
    }
}

/// The first of the list of a number, None where it is empty.
pub fn first_in<T: Copy>(lists: &Items<Items<T>>, number: ObjNo) -> Option<T>
    ensures { result ≡ slice_get (slice_index_or lists.now number.0 []) 0 }
{
    list_at(lists, number).first().copied()
}
