//! What is told of objects, and the names that they keep.
ghost use Rattle.std.specs.Prelude.{◌≡◌};
ghost use Rattle.objects.specs.Rows.{kept_name};

use state_rows::is_session;
use sym_base::{Kind, Name};

/// What is told of an object: `count` references that the kernel itself counted, and whether its last
/// reference went (Symbian OS Internals, the chapter on kernel services).
#[derive(Clone, Copy)]
pub struct ObjRow {
    pub kind: Kind,
    pub name: Name,
    pub count: u32,
    pub dead: bool,
    /// How many objects were made before it.
    pub place: u64,
}

/// The name that an object of a kind keeps: none for a session.
pub fn kept_name(kind: Kind, name: &Name) -> Name
    ensures { result ≡ kept_name kind name.now }
{
    if is_session(kind) { Name::EMPTY } else { *name }
}
