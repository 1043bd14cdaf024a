//! Lists of lists, a second time.
ghost use Rattle.std.specs.Prelude.{◌≡◌, IfOk};

use std::alloc::{AllocError, Global};
use sym_base::Items;

/// A second list of lists of the same items.
pub fn copied_lists<T: Copy>(
    alloc: Global,
    lists: &[Items<T>],
) -> Result<Items<Items<T>>, AllocError>
    ensures { IfOk result (λ copies. copies ≡ lists.now) }
{
    let mut copies = Vec::new(alloc);
    for list in lists {
        copies.push(list.copied(alloc)?)?;
    }
    Ok(Items::new(copies))
}
