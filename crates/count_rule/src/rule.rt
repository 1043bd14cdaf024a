//! The table of count words, and its rule.

use crate::view::View;
use atomic_table::{Seat, Table, TableRule};
use std::alloc::Global;

/// What a word has from the moment its place is gone, beside the tickets that came too late.
pub const MARK: u64 = 1 << 63;

/// The rule that words and views keep at each step: each word shows what the kernel counted at its place and
/// what the tickets hold there.
pub struct CountRule;

impl TableRule<(), View, u32> for CountRule {
    ghost use Rattle.count_rule.specs.Shows.{Holds};
    ghost use Rattle.count_rule.specs.Views.{fresh_counted};
    ghost use Rattle.count_rule.specs.declared.view.View.TheVariants.{Kernel};

    ghost holds = { λ _. Holds };

    ghost first = { λ places. Kernel (fresh_counted places) };
}

/// The words, one a place, each a `u64`. The table has no slots.
pub type CountTable = Table<(), View, u32, CountRule, Global>;

/// A seat of the table.
pub type CountSeat = Seat<(), View>;
