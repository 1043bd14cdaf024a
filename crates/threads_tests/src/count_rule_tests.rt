//! Tickets that open before and after the last close, in one thread and in several.
ghost use Rattle.std.specs.Prelude.{◌≡◌, ◌≢◌, ◌<◌, length, None, Some};
ghost use Rattle.ref_words.specs.Words.{IsFresh, own_at, closed};

use count_rule::{StateSeat, Ticket};
use ref_words::{Closed, Found, RefWords};
use std::alloc::Global;
use std::process::Abort;
use std::thread::{Threads, join};

/// Compares what was found with what was wanted.
fn expect_found<R: Abort>(rt: &R, found: Found, wanted: Found)
    ensures { found ≡ wanted }
{
    assert_eq!(rt; found, wanted);
}

/// Compares what a close answered with what was wanted.
fn expect_closed<R: Abort>(rt: &R, closed: Closed, wanted: Closed)
    ensures { closed ≡ wanted }
{
    assert_eq!(rt; closed, wanted);
}

#[test]
fn an_object_stays_for_a_ticket_that_opened(rt: HostRuntime) {
    let mut words = StateSeat::new(rt.alloc(), 8).expect(&rt, "memory");
    words.create(5);
    let mut ticket = words.send_out(5);
    expect_found(&rt, ticket.open(), Found::Held);
    expect_closed(&rt, words.close(5), Closed::Stays);
    expect_found(&rt, words.take_back(ticket), Found::Held);
    expect_closed(&rt, words.close(5), Closed::Last);
}

#[test]
fn a_ticket_finds_a_closed_object_dead(rt: HostRuntime) {
    let mut words = StateSeat::new(rt.alloc(), 8).expect(&rt, "memory");
    words.create(6);
    let mut ticket = words.send_out(6);
    expect_closed(&rt, words.close(6), Closed::Last);
    expect_found(&rt, ticket.open(), Found::Dead);
    expect_found(&rt, words.take_back(ticket), Found::Dead);
}

/// Closes what the kernel has of an object, which stays by this ticket, and then what the ticket has.
fn expect_held<R: Abort>(rt: &R, words: &mut StateSeat, ticket: Ticket)
    requires counted { 0 < own_at words.old 7 }
    requires settled { ticket.found ≢ None }
    requires fits { ticket.identity ≡ words.old.identity }
    requires place { ticket.slip.place ≡ 7 }
{
    expect_closed(rt, words.close(7), Closed::Stays);
    expect_found(rt, words.take_back(ticket), Found::Held);
    expect_closed(rt, words.close(7), Closed::Last);
}

#[test]
fn each_of_two_tickets_holds(rt: HostRuntime) {
    let mut words = StateSeat::new(rt.alloc(), 8).expect(&rt, "memory");
    words.create(7);
    let mut first = words.send_out(7);
    let mut second = words.send_out(7);
    expect_found(&rt, first.open(), Found::Held);
    expect_closed(&rt, words.close(7), Closed::Stays);
    expect_found(&rt, second.open(), Found::Held);
    expect_found(&rt, words.take_back(second), Found::Held);
    expect_held(&rt, &mut words, first);
}

/// Makes an object with two references, sends a note out for it, and closes one: known by the bound alone.
fn sent_while_known<W: RefWords>(words: &mut W, place: u32) -> W::Note
    requires fresh { IsFresh (W.meaning words.old) place }
    requires few_out { length (W.meaning words.old).out < 64 }
    requires few_made { (W.meaning words.old).made < 4294967295 }
    ensures is_new { W.IsNew result }
    ensures fits { W.Fits words.new result }
    ensures place { (W.slip result).place ≡ place }
    ensures one { own_at (W.meaning words.new) place ≡ 1 }
{
    words.create(place);
    words.open_known(place);
    let note = words.send_out(place);
    let _ = words.close(W::place_of(&note));
    note
}

#[test]
fn a_ticket_raises_a_count_that_is_known(rt: HostRuntime) {
    let mut words = StateSeat::new(rt.alloc(), 4).expect(&rt, "memory");
    assert_eq!(rt; words.places(), 4);
    let mut ticket = sent_while_known(&mut words, 3);
    assert_eq!(rt; ticket.place(), 3);
    expect_found(&rt, ticket.open(), Found::Held);
    expect_found(&rt, words.take_back(ticket), Found::Held);
    expect_closed(&rt, words.close(3), Closed::Stays);
    expect_closed(&rt, words.close(3), Closed::Last);
}

/// The kernel closes its one reference, in a thread of its own.
fn closing(mut words: StateSeat) -> (StateSeat, Closed)
    requires { 0 < own_at words 0 }
    ensures { result.0 ≡ closed result.1 words 0 }
{
    let left = words.close(0);
    (words, left)
}

/// A ticket opens, in a thread of its own.
fn opening(mut ticket: Ticket) -> (Ticket, Found)
    requires { ticket.found ≡ None }
    ensures { result.0 ≡ record ticket { found = Some result.1 } }
{
    let found = ticket.open();
    (ticket, found)
}

/// Two tickets open, each in a thread of its own.
fn opening_both<R: Threads + Sync>(
    rt: &R,
    one: Ticket,
    two: Ticket,
) -> ((Ticket, Found), (Ticket, Found))
    requires { (one.found ≡ None) × (two.found ≡ None) }
    ensures one { result.0.0 ≡ record one { found = Some result.0.1 } }
    ensures two { result.1.0 ≡ record two { found = Some result.1.1 } }
{
    join(rt, move || opening(one), move || opening(two))
}

/// Both tickets hold: they come back, and the object has two references.
fn expect_both_held<R: Abort>(rt: &R, words: &mut StateSeat, one: Ticket, two: Ticket)
    requires settled { (one.found ≢ None) × (two.found ≢ None) }
    requires fit { (one.identity ≡ words.old.identity) × (two.identity ≡ words.old.identity) }
    requires places { (one.slip.place ≡ 0) × (two.slip.place ≡ 0) }
{
    expect_found(rt, words.take_back(two), Found::Held);
    expect_found(rt, words.take_back(one), Found::Held);
    expect_closed(rt, words.close(0), Closed::Stays);
    expect_closed(rt, words.close(0), Closed::Last);
}

/// Both tickets found the object dead, and come back.
fn expect_both_dead<R: Abort>(rt: &R, words: &mut StateSeat, one: Ticket, two: Ticket)
    requires settled { (one.found ≢ None) × (two.found ≢ None) }
    requires fit { (one.identity ≡ words.old.identity) × (two.identity ≡ words.old.identity) }
{
    expect_found(rt, words.take_back(one), Found::Dead);
    expect_found(rt, words.take_back(two), Found::Dead);
}

/// Whichever comes first: both tickets hold and the object has two references in the end, or both find it dead.
fn expect_one_story<R: Abort + Threads + Sync>(rt: &R, alloc: Global) {
    let mut words = StateSeat::new(alloc, 1).expect(rt, "memory");
    words.create(0);
    let one = words.send_out(0);
    let two = words.send_out(0);
    let ((mut words, left), ((one, first), (two, second))) = join(
        rt,
        move || closing(words),
        ||
            requires { (one.found ≡ None) × (two.found ≡ None) }
        { opening_both(rt, one, two) },
    );
    match (left, first, second) {
        (Closed::Stays, Found::Held, Found::Held) => expect_both_held(rt, &mut words, one, two),
        (Closed::Last, Found::Dead, Found::Dead) => expect_both_dead(rt, &mut words, one, two),
        other => panic!(rt; "the words say otherwise: {other:?}"),
    }
}

#[test]
fn tickets_open_while_the_kernel_closes(rt: HostRuntime) {
    for _ in 0..1000 {
        expect_one_story(&rt, rt.alloc());
    }
}
