//! Rows of objects.
ghost use Rattle.std.specs.Prelude.{◌≡◌};
ghost use Rattle.state_rows.specs.ObjectRows.{is_session, has_name, is_dead_row, dead_row, place_of};

use sym_base::{Kind, Name};

/// The most objects that a kernel has at once; where no number is used again, the most that it makes. This project's own
/// limit.
pub const MAX_OBJECTS: usize = 4096;

/// An object that isn't swept: its kind, its name, whether its last reference is gone, and its place (Symbian OS
/// Internals, the chapter on kernel services, on kernel objects). The name of a session is empty.
#[derive(Clone, Copy)]
pub struct ObjectRow {
    pub kind: Kind,
    pub name: Name,
    pub dead: bool,
    /// How many objects were made before it. No two objects have one place, also where one has a number that the other
    /// had before. This project's own rule.
    pub place: u64,
}

/// Whether a kind is that of sessions, which have no names.
pub fn is_session(kind: Kind) -> bool
    ensures { result ≡ is_session kind }
{
    kind.is(Kind::Session)
}

/// Whether an object isn't swept and has this kind and name.
pub fn has_name(kind: Kind, name: &Name, row: &Option<ObjectRow>) -> bool
    ensures { result ≡ has_name kind name.now row.now }
{
    match row {
        Some(row) => row.kind.is(kind) && row.name.is(name),
        None => false,
    }
}

/// Whether an object isn't swept and its last reference is gone.
pub fn is_dead_row(row: &Option<ObjectRow>) -> bool
    ensures { result ≡ is_dead_row row.now }
{
    match row {
        Some(row) => row.dead,
        None => false,
    }
}

/// How many objects were made before an object, 0 where there is none.
pub fn place_of(row: &Option<ObjectRow>) -> u64
    ensures { result ≡ place_of row.now }
{
    match row {
        Some(row) => row.place,
        None => 0,
    }
}

/// The row of an object whose last reference is gone.
pub fn dead_row(row: Option<ObjectRow>) -> Option<ObjectRow>
    ensures { result ≡ dead_row row }
{
    match row {
        Some(row) => Some(ObjectRow { dead: true, ..row }),
        None => None,
    }
}
