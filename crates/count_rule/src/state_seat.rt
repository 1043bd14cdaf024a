//! The state seat: reference counts as the kernel changes them.
ghost use Rattle.std.specs.Prelude.{◌≡◌, ℕ, ◌+◌, ◌<◌, ◌≤◌, ◌≢◌, ◌↔◌, IfOk, length, All, vec_len, vec_capacity, Some, None};
ghost use Rattle.ref_words.specs.Words.{Words, own_at, IsCreated, IsGone, IsOut, NoneCreated, taken_back};
ghost use Rattle.ref_words.specs.Plain.{fresh_words};

use crate::plays::At;
use crate::rule::{CountSeat, CountTable};
use crate::share::Share;
use crate::steps;
use crate::ticket::Ticket;
use ref_words::{Closed, Found, RefWords};
use std::alloc::Global;
use std::marker::{Brand, Model};
use sym_base::NoMemory;

/// The most tickets that are out at a time. The limit is this project's own.
const MAX_OUT: usize = 64;

/// Reference counts in words that tickets raise outside the kernel's lock. It stands in the kernel, and
/// only it creates, opens by a known reference, and closes.
#[derive(Drop)]
pub struct StateSeat {
    share: Share,
    seat: CountSeat,
    own: Vec<u32>,
    shares: Vec<Share>,
}

impl Model for StateSeat {
    ghost use Rattle.std.specs.Prelude.{vec_capacity};
    ghost use Rattle.ref_words.specs.Words.{Words};
    ghost use Rattle.count_rule.specs.Views.{words_of};
    ghost use Rattle.count_rule.specs.Seats.{counts, IsWhole, identity_of};

    ghost Value = { Words };

    ghost view = { λ s. words_of (identity_of s.seat.table_id) (counts s.seat) };

    ghost invariant = { λ s. IsWhole s.share s.seat s.own.items s.shares.items (vec_capacity s.shares) };
}

/// As many shares of the table as tickets may be out.
fn shares_of(alloc: Global, share: &Share) -> Result<Vec<Share>, NoMemory>
    ensures shares { IfOk result (λ shares. All (λ other. other ≡ share.now) shares.items) }
    ensures many { IfOk result (λ shares. vec_len shares ≡ 64) }
    ensures room { IfOk result (λ shares. 64 ≤ vec_capacity shares) }
{
    let mut shares = Vec::with_capacity(alloc, MAX_OUT)?;
    for _ in 0..MAX_OUT {
        shares.push_reserved(share.another()?);
    }
    Ok(shares)
}

impl StateSeat {
    /// Words for the places from 0 on, none of them created. It takes all the memory that the words and
    /// their tickets ever need.
    pub fn new(alloc: Global, count: u32) -> Result<StateSeat, NoMemory>
        ensures words { IfOk result (λ words. words ≡ record (fresh_words count) { identity = words.identity }) }
        ensures places { IfOk result (λ words. length words.own ≡ count) }
        ensures fresh { IfOk result NoneCreated }
    {
        let own = vec![in alloc; 0u32; count as usize]?;
        let words = vec![in alloc; 0u64; count as usize]?;
        let (table, seat) = CountTable::of_words(alloc, words.as_slice(), &count)?;
        let share = Share::of(alloc, table)?;
        let shares = shares_of(alloc, &share)?;
        Ok(StateSeat {
            share,
            seat,
            own,
            shares,
        })
    }
}

impl RefWords for StateSeat {
    type Note = Ticket;

    ghost meaning = { λ words. words };

    ghost slip = { λ note. note.slip };

    ghost origin = { λ note. note.identity };

    ghost IsNew = { λ note. note.found ≡ None };

    ghost IsSettled = { λ note. note.found ≢ None };

    ghost Fits = { λ words note. note.identity ≡ words.identity };

    ghost MayStay = { λ _ _. Unit {0} };

    ghost use Rattle.std.proofs.Common.{◌∙◌, sym};

    ghost fits_on = { λ old new note fits same out. fits ∙ sym same };

    fn places(&self) -> usize {
        self.own.len()
    }

    fn place_of(note: &Ticket) -> u32 {
        note.place()
    }

    fn create(&mut self, place: u32) {
        steps::create(self.share.table(), &mut self.seat, place);
        self.own[place as usize] = 1;
    }

    fn open_known(&mut self, place: u32) {
        steps::open_known(self.share.table(), &mut self.seat, place);
        self.own[place as usize] += 1;
    }

    fn send_out(&mut self, place: u32) -> Ticket {
        let seat = steps::split::<Brand>(self.share.table(), &mut self.seat, place);
        Ticket {
            share: self.shares.pop().unwrap(),
            seat,
            place,
            found: None,
        }
    }

    /// It answers what the ticket found.
    fn take_back(&mut self, note: Ticket) -> Found
        requires settled { note.found ≢ None }
        requires fits { note.identity ≡ self.old.identity }
        ensures as_found { note.found ≡ Some result }
        ensures taken { self.new ≡ taken_back result self.old note.slip }
        ensures dead { (result ≡ Found.Dead) ↔ IsGone self.old note.slip.place }
        ensures uncounted { result ≡ Found.Dead → own_at self.old note.slip.place ≡ 0 }
        ensures may_stay { result ≡ Found.Held → own_at self.old note.slip.place ≡ 0 → Unit {0} }
        ensures was_out { IsOut self.old note.slip }
        ensures created { IsCreated self.old note.slip.place }
        ensures placed { note.slip.place < length self.old.own }
        ensures fewer { length self.new.out + 1 ≡ length self.old.out }
        ensures bounded { own_at self.new note.slip.place ≤ 2147483712 }
    {
        let Ticket {
            share,
            seat,
            place,
            found,
        } = note;
        steps::join(self.share.table(), &mut self.seat, seat);
        steps::look(self.share.table(), &mut self.seat, place);
        self.shares.push_reserved(share);
        match found.unwrap() {
            Found::Held => {
                self.own[place as usize] += 1;
                Found::Held
            }
            Found::Dead => Found::Dead,
        }
    }

    fn close(&mut self, place: u32) -> Closed {
        let count = self.own[place as usize];
        self.own[place as usize] = count - 1;
        if count == 1 && steps::close_last(self.share.table(), &mut self.seat, place) {
            return Closed::Last;
        }
        steps::close(self.share.table(), &mut self.seat, place);
        Closed::Stays
    }
}
