//! The kinds of atomic step, each one operation on the word of its place.
ghost use Rattle.std.specs.Prelude.{◌≡◌, ℕ, ◌+◌, ◌<◌, ◌↔◌, true, false, ◌==◌, [], ◌∷◌, length, IfSome, IsSome, IsTrue, Some, None};
ghost use Rattle.ref_words.specs.Words.{IsFresh, IsCreated, HasNoteOut};
ghost use Rattle.count_rule.specs.declared.view.View.TheVariants.{Ticket};
ghost use Rattle.count_rule.specs.Views.{words_of, own_of};
ghost use Rattle.count_rule.specs.Shows.{WasOut, IsFoundAt};
ghost use Rattle.count_rule.specs.Moves.{creating, opening_known, closing_last, failing, closing_one, sending, joining, looking, tried, found_at, found_of, slip_of};
ghost use Rattle.count_rule.specs.Seats.{counts, IsKernels, IsCalm, Knows};

use crate::plays::{At, Close, CloseLast, Create, Look, Open, OpenKnown, SendOut, TakeBack};
use crate::rule::{CountSeat, CountTable, MARK};
use ref_words::Found;

/// A ticket opens: one addition, in which the old word decides.
pub(crate) fn open(table: &CountTable, ticket: &mut CountSeat, place: u32) -> Found
    requires seat { ticket.old.table_id ≡ table.now.shared.table_id }
    requires out { ticket.old.me ≡ (Ticket (slip_of ticket.old.me.0) None, []) }
    requires place { (slip_of ticket.old.me.0).place ≡ place }
    requires placed { place < table.now.shared.table_id.words }
    ensures seat { (ticket.new.table_id ≡ ticket.old.table_id) × (ticket.new.id ≡ ticket.old.id) }
    ensures found { ticket.new.me ≡ (Ticket (slip_of ticket.old.me.0) (Some result), []) }
    ensures at_its_step { IsFoundAt (slip_of ticket.old.me.0) result }
{
    let before = table.shared.fetch_add::<Open>(ticket, place as usize, 1);
    if before < MARK {
        Found::Held
    } else {
        Found::Dead
    }
}

/// The kernel creates: the word becomes 1.
pub(crate) fn create(table: &CountTable, seat: &mut CountSeat, place: u32)
    requires seat { IsKernels table.now.shared.table_id seat.old }
    requires calm { IsCalm (counts seat.old) }
    requires fresh { IsFresh (words_of [] (counts seat.old)) place }
    requires placed { place < table.now.shared.table_id.words }
    ensures { Knows seat.old seat.new (creating place (counts seat.old)) }
{
    table.shared.store::<Create>(seat, place as usize, 1);
}

/// The kernel adds a reference to an object that has one.
pub(crate) fn open_known(table: &CountTable, seat: &mut CountSeat, place: u32)
    requires seat { IsKernels table.now.shared.table_id seat.old }
    requires calm { IsCalm (counts seat.old) }
    requires known { 0 < own_of (counts seat.old) place }
    requires small { own_of (counts seat.old) place < 2147483648 }
    requires placed { place < table.now.shared.table_id.words }
    ensures { Knows seat.old seat.new (opening_known place (counts seat.old)) }
{
    table.shared.fetch_add::<OpenKnown>(seat, place as usize, 1);
}

/// The kernel closes its last reference: 1 becomes the mark. It fails where a ticket of the place holds.
pub(crate) fn close_last(table: &CountTable, seat: &mut CountSeat, place: u32) -> bool
    requires seat { IsKernels table.now.shared.table_id seat.old }
    requires calm { IsCalm (counts seat.old) }
    requires one { own_of (counts seat.old) place ≡ 1 }
    requires placed { place < table.now.shared.table_id.words }
    ensures knows { Knows seat.old seat.new (tried place result (counts seat.old)) }
    ensures held { result ≡ false → HasNoteOut (words_of [] (counts seat.old)) place }
{
    let before = table
        .shared
        .compare_exchange::<CloseLast>(seat, place as usize, 1, MARK);
    before == 1
}

/// The kernel closes a reference that isn't the last one.
pub(crate) fn close(table: &CountTable, seat: &mut CountSeat, place: u32)
    requires seat { IsKernels table.now.shared.table_id seat.old }
    requires known { 0 < own_of (counts seat.old) place }
    requires failed { own_of (counts seat.old) place ≡ 1 → (counts seat.old).closing ≡ Some place }
    requires looked { (counts seat.old).joined ≡ None }
    requires placed { place < table.now.shared.table_id.words }
    ensures { Knows seat.old seat.new (closing_one place (counts seat.old)) }
{
    table.shared.fetch_sub::<Close>(seat, place as usize, 1);
}

/// The kernel sends a ticket out for the place that `A` picks. `place` ties it to a number, for the clauses alone.
pub(crate) fn split<A: At>(table: &CountTable, seat: &mut CountSeat, place: u32) -> CountSeat
    requires picked { place ≡ A.place }
    requires seat { IsKernels table.now.shared.table_id seat.old }
    requires calm { IsCalm (counts seat.old) }
    requires created { IsCreated (words_of [] (counts seat.old)) place }
    requires small { own_of (counts seat.old) place < 2147483648 }
    requires few_out { length (counts seat.old).out < 64 }
    requires few_made { (counts seat.old).made < 4294967295 }
    requires placed { place < table.now.shared.table_id.words }
    ensures knows { Knows seat.old seat.new (sending place (counts seat.old)) }
    ensures table { result.table_id ≡ table.now.shared.table_id }
    ensures ticket { result.me ≡ (Ticket (record { place = place; number = (counts seat.old).made + 1 }) None, []) }
{
    let _ = place;
    table.shared.split_seat::<SendOut<A>>(seat)
}

/// The kernel takes a ticket in: what it holds is counted from now on.
pub(crate) fn join(table: &CountTable, seat: &mut CountSeat, ticket: CountSeat)
    requires seat { IsKernels table.now.shared.table_id seat.old }
    requires calm { IsCalm (counts seat.old) }
    requires table { ticket.table_id ≡ table.now.shared.table_id }
    requires ticket { ticket.me ≡ (Ticket (slip_of ticket.me.0) (Some (found_of ticket.me.0)), []) }
    requires words { 0 < table.now.shared.table_id.words }
    ensures { Knows seat.old seat.new (joining (slip_of ticket.me.0) (found_of ticket.me.0) (counts seat.old)) }
{
    table.shared.join_seat::<TakeBack>(seat, ticket);
}

/// The kernel looks after a join, and learns that the note was out.
pub(crate) fn look(table: &CountTable, seat: &mut CountSeat, place: u32)
    requires seat { IsKernels table.now.shared.table_id seat.old }
    requires placed { place < table.now.shared.table_id.words }
    ensures knows { Knows seat.old seat.new (looking (counts seat.old)) }
    ensures was_out { IfSome (counts seat.old).joined (WasOut (counts seat.old)) }
{
    table.shared.load::<Look>(seat, place as usize);
}
