//! How a lock is made with its passes, and closed with all of them.
ghost use Rattle.std.specs.Prelude.{◌≡◌, ℕ, ◌<◌, ◌≤◌, [], List, map, All, Contains, IfOk};
ghost use Rattle.turn_lock.specs.declared.view.Logged.{Logged};
ghost use Rattle.turn_lock.specs.declared.view.View.TheVariants.{Free};
ghost use Rattle.turn_lock.specs.Log.{entries_of};
ghost use Rattle.turn_lock.specs.Passes.{caller_of, known_of, sight_of, numbers, IsFree, IsWhole};
ghost use Rattle.turn_lock.specs.Views.{newcomers};

use crate::History;
use crate::pass::Pass;
use crate::steps::{Both, First};
use crate::taking::SLOT;
use crate::turns::{Start, Turns};
use crate::view::View;
use atomic_table::{Seat, Table};
use std::alloc::Global;
use std::snapshot::Snapshot;
use sym_base::NoMemory;

impl<V: History + Drop> Turns<V> {
    /// A lock round a value that has no entries yet, and 1 to 16 passes, whose callers are numbered from 0. It takes all the
    /// memory that lock and passes ever need.
    pub fn new(
        alloc: Global,
        value: V,
        passes: u32,
    ) -> Result<(Turns<V>, Vec<Pass<V::Base>>), NoMemory>
        requires empty { V.entries value ≡ [] }
        requires some { 0 < passes }
        requires few { passes ≤ 16 }
        ensures base { IfOk result (λ made. made.0.base ≡ V.base value) }
        ensures passes { IfOk result (λ made. made.0.passes ≡ passes) }
        ensures free { IfOk result (λ made. All (IsFree made.0) made.1.items) }
        ensures callers { IfOk result (λ made. map caller_of made.1.items ≡ numbers 0 passes) }
        ensures known { IfOk result (λ made. All (λ p. known_of p ≡ []) made.1.items) }
    {
        let start = Start {
            value: Snapshot::of(&value),
            passes,
        };
        let mut slots = Vec::with_capacity(alloc, 1)?;
        slots.push(Some(value))?;
        let Ok((table, seat)) = Table::new(alloc, &[0, 0], slots, &start) else {
            return Err(NoMemory);
        };
        let turns = Turns { table };
        let dealt = turns.deal(alloc, seat, passes)?;
        Ok((turns, dealt))
    }
}

impl<V: History> Turns<V> {
    /// Cuts a seat that knows for all callers into their passes.
    fn deal(
        &self,
        alloc: Global,
        mut seat: Seat<Option<V>, View<V::Base>>,
        count: u32,
    ) -> Result<Vec<Pass<V::Base>>, NoMemory>
        requires table { seat.table_id ≡ self.now.table }
        requires all { seat.me ≡ (Free (newcomers self.now.base self.now.passes 0 count), []) }
        ensures free { IfOk result (λ dealt. All (IsFree self.now) dealt.items) }
        ensures callers { IfOk result (λ dealt. map caller_of dealt.items ≡ numbers 0 count) }
        ensures known { IfOk result (λ dealt. All (λ p. known_of p ≡ []) dealt.items) }
    {
        let mut dealt = Vec::with_capacity(alloc, count as usize)?;
        for caller in 0..count {
            let rest = self.table.shared.split_seat::<First>(&mut seat);
            dealt.push(Pass {
                badge: seat.into_badge(),
            })?;
            seat = rest;
        }
        Ok(dealt)
    }

    /// Puts together what all passes know.
    fn gather(&self, mut passes: Vec<Pass<V::Base>>) -> Seat<Option<V>, View<V::Base>>
        requires free { All (IsFree self.now) passes.items }
        requires all { (caller : ℕ) → caller < self.now.passes → Contains (map caller_of passes.items) caller }
        ensures table { result.table_id ≡ self.now.table }
        ensures all { result.me ≡ (Free (map (sight_of self.now) passes.items), []) }
    {
        let shared = &self.table.shared;
        let Some(Pass { badge: last }) = passes.pop() else {
            unreachable!()
        };
        let mut seat = last.into_seat();
        while let Some(Pass { badge }) = passes.pop() {
            let mut before = badge.into_seat();
            shared.join_seat::<Both>(&mut before, seat);
            seat = before;
        }
        seat
    }

    /// The value, once all passes come back.
    pub fn close(self, passes: Vec<Pass<V::Base>>) -> V
        requires free { All (IsFree self) passes.items }
        requires all { (caller : ℕ) → caller < self.passes → Contains (map caller_of passes.items) caller }
        ensures base { V.base result ≡ self.base }

        // The value's list is the entries of the whole log.
        ensures whole { (log : List Logged) × (V.entries result ≡ entries_of log) × IsWhole passes.items log }
    {
        let seat = self.gather(passes);
        let Turns { table } = self;
        let mut closed = table.close_with(seat);
        let slot = closed.take(SLOT);
        closed.free();
        slot.unwrap()
    }
}
