//! A caller that knows only the bound, run once over `PlainWords`.
ghost use Rattle.std.specs.Prelude.{◌≡◌, ◌<◌, length};
ghost use Rattle.ref_words.specs.Words.{own_at, IsFresh};

use crate::same::expect_same;
use ref_words::{Closed, Found, PlainWords, RefWords};

/// Makes an object with two references, sends a note out, closes one reference and takes the note back.
fn found_while_known<W: RefWords>(words: &mut W, place: u32) -> Found
    requires fresh { IsFresh (W.meaning words.old) place }
    requires few_out { length (W.meaning words.old).out < 64 }
    requires few_made { (W.meaning words.old).made < 4294967295 }
    requires settles { (note : W.Note) → W.IsNew note → W.IsSettled note }
    ensures held { result ≡ Found.Held }
    ensures two { own_at (W.meaning words.new) place ≡ 2 }
    ensures back { length (W.meaning words.new).out ≡ length (W.meaning words.old).out }
{
    words.create(place);
    words.open_known(place);
    let note = words.send_out(place);
    let _ = words.close(W::place_of(&note));
    words.take_back(note)
}

#[test]
fn a_note_comes_back_to_an_object_in_use(rt: HostRuntime) {
    let mut words = PlainWords::new(rt.alloc(), 4).expect(&rt, "memory");
    expect_same(&rt, found_while_known(&mut words, 3), Found::Held);
    expect_same(&rt, words.close(3), Closed::Stays);
    drop(words);
}

#[test]
fn a_note_comes_back_to_a_gone_object(rt: HostRuntime) {
    let mut words = PlainWords::new(rt.alloc(), 4).expect(&rt, "memory");
    words.create(0);
    assert_eq!(rt; words.close(0), Closed::Last);
    let late = words.send_out(0);
    expect_same(&rt, words.take_back(late), Found::Dead);
    drop(words);
}
