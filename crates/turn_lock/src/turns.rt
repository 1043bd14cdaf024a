//! The lock, its rule, and which lock it is.
use crate::History;
use crate::view::View;
use atomic_table::{Table, TableRule};
use std::alloc::Global;
use std::marker::Model;
use std::snapshot::Snapshot;

/// What a lock is made from: its value at the start, and how many passes it has.
#[derive(Drop)]
pub(crate) struct Start<V> {
    pub(crate) value: Snapshot<V>,
    pub(crate) passes: u32,
}

/// The rule of the lock's table.
pub(crate) struct InTurns;

impl<V: History> TableRule<Option<V>, View<V::Base>, Start<V>> for InTurns {
    ghost use Rattle.turn_lock.specs.declared.view.View.TheVariants.{Free};
    ghost use Rattle.turn_lock.specs.Rule.{Kept};
    ghost use Rattle.turn_lock.specs.Views.{newcomers};

    ghost holds = { λ start. Kept V.entries V.base (V.base start.value.value) start.passes };

    ghost first = { λ start. Free (newcomers (V.base start.value.value) start.passes 0 start.passes) };
}

/// A lock that is taken in turns, in the order in which its callers came, and counts its history: its log has
/// each entry that was made under it, with the number of the caller that made it. A contract sees which lock it
/// is (`LockId`). That a lock carries its own history is this project's own.
#[derive(Drop)]
pub struct Turns<V: History> {
    pub(crate) table: Table<Option<V>, View<V::Base>, Start<V>, InTurns, Global>,
}

impl<V: History> Model for Turns<V> {
    ghost use Rattle.std.specs.Prelude.{◌≡◌, ◌<◌};
    ghost use Rattle.turn_lock.specs.LockId.{LockId};

    ghost Value = { LockId V.Base };

    ghost view = { λ t. record { table = t.table.shared.table_id; base = V.base t.table.shared.key.value.value; passes = t.table.shared.key.passes } };

    ghost invariant = { λ t. (t.table.shared.table_id.words ≡ 2) × (t.table.shared.table_id.slots ≡ 1) × (0 < t.table.shared.key.passes) };
}
