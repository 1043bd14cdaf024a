//! Shares of the table of words.
ghost use Rattle.std.specs.Prelude.{◌≡◌, IfOk};
ghost use Rattle.std.specs.Arc.{arc_value};

use crate::rule::CountTable;
use std::alloc::Global;
use std::marker::Model;
use std::sync::Arc;
use sym_base::NoMemory;

/// A share of a table of words. A contract sees which table it is.
#[derive(Drop)]
pub(crate) struct Share {
    table: Arc<CountTable, Global>,
}

impl Model for Share {
    ghost use Rattle.std.specs.Arc.{arc_value};
    ghost use Rattle.atomic_table.specs.Seated.{TableId};

    ghost Value = { TableId };

    ghost view = { λ share. (arc_value share.table).shared.table_id };
}

impl Share {
    /// The first share of a table.
    pub(crate) fn of(alloc: Global, table: CountTable) -> Result<Share, NoMemory>
        ensures { IfOk result (λ share. share ≡ table.shared.table_id) }
    {
        let table = Arc::new(alloc, table)?;
        Ok(Share { table })
    }

    /// A further share of the same table.
    pub(crate) fn another(&self) -> Result<Share, NoMemory>
        ensures { IfOk result (λ share. share ≡ self.now) }
    {
        let table = Arc::try_clone(&self.table)?;
        Ok(Share { table })
    }

    pub(crate) fn table(&self) -> &CountTable
        ensures { result.now.shared.table_id ≡ self.now }
    {
        &self.table
    }
}
