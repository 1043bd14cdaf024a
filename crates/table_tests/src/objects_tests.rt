//! Worked examples: a mutex is made and found, and an object is swept after its last reference went.
ghost use Rattle.std.specs.Prelude.{◌≡◌, ◌-◌, ◌<◌, ◌↔◌, IsTrue, false, length, slice_index, slice_set};
ghost use Rattle.state_rows.specs.ObjectRows.{is_dead_row, place_of};
ghost use Rattle.ref_words.specs.Words.{own_at, closed, IsOut};
ghost use Rattle.objects.specs.Calls.{next_place, rows_closed};
ghost use Rattle.objects.specs.Rows.{is_alive, is_there, row_at};

use crate::same::{expect_same, expect_that};
use objects::{Made, Objects};
use ref_words::{Closed, Found, PlainNote, PlainWords};
use std::test::Fail;
use sym_base::{Kind, Name, ObjNo, read_name};

#[test]
fn a_mutex_is_made_once(rt: HostRuntime) -> Result<(), Fail> {
    let name = read_name(b"door").ok_or("no name")?;
    let words = PlainWords::new(rt.alloc(), 4096)?;
    let mut objects = Objects::new(rt.alloc(), words, false)?;
    assert_eq!(rt; objects.make(Kind::Mutex, &name), Made::Made(ObjNo(0)));
    assert!(rt; objects.is_taken(Kind::Mutex, &name));
    assert_eq!(rt; objects.make(Kind::Mutex, &name), Made::NameTaken);
    assert_eq!(rt; objects.find(Kind::Mutex, &name), Some(ObjNo(0)));
    assert_eq!(rt; objects.find(Kind::Server, &name), None);
    assert!(rt; !objects.is_taken(Kind::Session, &name));
    assert_eq!(rt; objects.find(Kind::Session, &name), None);
    drop(objects);
    Ok(())
}

/// Over `PlainWords` a close is the last one exactly at one reference.
fn close_plain(objects: &mut Objects<PlainWords>, o: ObjNo) -> Closed
    requires there { IsTrue (is_there (row_at objects.old.rows o.0)) }
    requires known { 0 < slice_index objects.old.counts o.0 }
    ensures answer { (result ≡ Closed.Last) ↔ (slice_index objects.old.counts o.0 ≡ 1) }
    ensures rows { objects.new.rows ≡ rows_closed result objects.old.rows o.0 }
    ensures counts { objects.new.counts ≡ slice_set objects.old.counts o.0 (slice_index objects.old.counts o.0 - 1) }
    ensures words { objects.new.words ≡ closed result objects.old.words (place_of (row_at objects.old.rows o.0)) }
{
    objects.close_ref(o)
}

/// Over `PlainWords` a note finds its object dead exactly where no reference is left.
fn take_back_plain(objects: &mut Objects<PlainWords>, note: PlainNote) -> Found
    requires out { IsOut objects.old.words note }
    ensures answer { (result ≡ Found.Dead) ↔ (own_at objects.old.words note.place ≡ 0) }
    ensures rows { objects.new.rows ≡ objects.old.rows }
{
    objects.take_back(note)
}

/// Whether an object is made and isn't swept.
fn stands(objects: &Objects<PlainWords>, o: ObjNo) -> bool
    ensures { IsTrue result → IsTrue (is_there (row_at objects.now.rows o.0)) }
{
    objects.row(o).is_some()
}

/// Whether its last reference went, too.
fn is_dead(objects: &Objects<PlainWords>, o: ObjNo) -> bool
    ensures there { IsTrue result → IsTrue (is_there (row_at objects.now.rows o.0)) }
    ensures dead { IsTrue result → IsTrue (is_dead_row (row_at objects.now.rows o.0)) }
    ensures not_alive { IsTrue result → is_alive (row_at objects.now.rows o.0) ≡ false }
{
    match objects.row(o) {
        Some(row) => row.dead,
        None => false,
    }
}

/// Makes an object with two references, closes both, takes a note back, and sweeps the object. Tells
/// whether the note found it dead.
fn is_dead_then_swept(objects: &mut Objects<PlainWords>, name: &Name) -> bool
    requires place { next_place objects.old.reuse objects.old.rows objects.old.made < length objects.old.words.own }
    requires few_out { length objects.old.words.out < 64 }
    requires few_made { objects.old.words.made < 4294967295 }
{
    let Made::Made(o) = objects.make(Kind::Mutex, name) else {
        return false;
    };
    if !stands(objects, o) {
        return false;
    }
    objects.add_ref(o);
    let _ = close_plain(objects, o);
    if !stands(objects, o) {
        return false;
    }
    let _ = close_plain(objects, o);
    if !is_dead(objects, o) {
        return false;
    }
    let note = objects.send_out(o);
    let found = take_back_plain(objects, note);
    objects.sweep(o);
    found == Found::Dead
}

#[test]
fn a_name_is_free_after_the_sweep(rt: HostRuntime) {
    let name = read_name(b"door").expect(&rt, "a name");
    let words = PlainWords::new(rt.alloc(), 4096).expect(&rt, "memory");
    let mut objects = Objects::new(rt.alloc(), words, false).expect(&rt, "memory");
    expect_that(&rt, is_dead_then_swept(&mut objects, &name));
    expect_same(&rt, objects.find(Kind::Mutex, &name), None);
    expect_that(&rt, objects.row(ObjNo(0)).is_none());
    expect_that(&rt, !objects.is_taken(Kind::Mutex, &name));
    expect_same(&rt, objects.next(), 1);
    drop(objects);
}

#[test]
fn a_number_is_used_again(rt: HostRuntime) {
    let name = read_name(b"door").expect(&rt, "a name");
    let words = PlainWords::new(rt.alloc(), 4096).expect(&rt, "memory");
    let mut objects = Objects::new(rt.alloc(), words, true).expect(&rt, "memory");
    expect_that(&rt, is_dead_then_swept(&mut objects, &name));
    expect_same(&rt, objects.next(), 0);
    drop(objects);
}
