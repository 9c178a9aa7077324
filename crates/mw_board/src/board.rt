// The board, and its words once it is closed.
ghost use Rattle.std.specs.Prelude.{ℕ, ◌≡◌, ◌≢◌, ◌+◌, ◌-◌, ◌<◌, ◌≤◌, ◌↔◌, IsTrue, IfOk, length, slice_index};
ghost use Rattle.mw_board.specs.Rule.{AllHeld, Looks, Enrols, Takes, Puts, Tells, Kept, nothing, mark_of, elements};
ghost use Rattle.mw_board.specs.Rule.{times, has_joined, has_seen, has_enrolled, has_taken, has_missed, has_put};

use crate::seat::Seat;
use crate::view::View;
use atomic_table::{Closed, Join, Play, Split, Table, TableRule};
use std::alloc::{AllocError, Global};
use std::marker::Model;

struct Law;

impl TableRule<(), View, u64> for Law {
    ghost holds = { λ n s. Kept n s.words s.views };

    ghost first = { λ _. nothing };
}

struct Look;

impl Play<(), View> for Look {
    ghost then = { Looks };
}

struct Enrol;

impl Play<(), View> for Enrol {
    ghost then = { Enrols };
}

struct Take;

impl Play<(), View> for Take {
    ghost then = { Takes };
}

struct Put;

impl Play<(), View> for Put {
    ghost then = { Puts };
}

struct Tell;

impl Play<(), View> for Tell {
    ghost then = { Tells };
}

struct Notes;

impl Split<View> for Notes {
    ghost left = { λ v. v };

    ghost right = { λ _. nothing };
}

impl Join<View> for Notes {
    ghost both = { has_joined };

    ghost spent = { nothing };
}

/// Why a seat was not enrolled: 64 are, or another one was first, and word 0 is this now.
#[derive(Clone, Copy, Debug, PartialEq, Eq)]
pub enum EnrolError {
    Full,
    Lost(u64),
}

/// Elements from 1 to n, each with a word. Contracts see its name and n.
#[derive(Drop)]
pub struct Board {
    table: Table<(), View, u64, Law, Global>,
    n: u32,
}

impl Model for Board {
    ghost use Rattle.std.specs.Prelude.{◌≡◌, ◌+◌};
    ghost use Rattle.std.specs.Coded.{codes};
    ghost use Rattle.atomic_table.specs.Seated.{table_id_coded};
    ghost use Rattle.mw_board.specs.Rule.{Ground};

    ghost Value = { Ground };

    ghost coded = { Prim.hlevel (codes, table_id_coded) };

    ghost view = { λ b. record { name = b.table.shared.table_id; count = b.n } };

    ghost invariant = { λ b. (b.table.shared.table_id.words ≡ b.n + 1) × (b.table.shared.table_id.slots ≡ 0)
        × (b.table.shared.key ≡ b.n) };
}

impl Board {
    /// A board with all words 0, and a seat with nothing in it.
    pub fn new(alloc: Global, n: u32) -> Result<(Board, Seat), AllocError>
        ensures { IfOk result (λ b. (b.0.count ≡ n) × (b.1.board ≡ b.0.name) × (b.1.view ≡ nothing)) }
    {
        let words = vec![in alloc; 0u64; n as usize + 1]?;
        let about = u64::from(n);
        let (table, place) = Table::of_words(alloc, words.as_slice(), &about)?;
        Ok((
            Board { table, n },
            Seat {
                place,
                saw: 0,
                mark: 0,
            },
        ))
    }

    /// One load of word 0.
    pub fn look(&self, seat: &mut Seat) -> u64
        requires board { seat.old.board ≡ self.now.name }
        ensures saw { seat.new ≡ record seat.old { view = has_seen seat.old.view result } }
        ensures later { seat.old.view.saw ≤ result }
        ensures most { result ≤ 64 }
    {
        let saw = self.table.shared.load::<Look>(&mut seat.place, 0);
        seat.saw = saw;
        saw
    }

    /// One compare_exchange of word 0, from what the seat saw to one more; none where that is 64.
    pub fn enrol(&self, seat: &mut Seat) -> Result<u32, EnrolError>
        requires board { seat.old.board ≡ self.now.name }
        ensures full { (result ≡ Err EnrolError.Full) ↔ (seat.old.view.saw ≡ 64) }
        ensures unchanged { result ≡ Err EnrolError.Full → seat.new ≡ seat.old }
        ensures won { IfOk result (λ k. (k ≡ seat.old.view.saw) × (k < 64)
            × (seat.new ≡ record seat.old { view = has_enrolled seat.old.view k })) }
        ensures lost { (v : ℕ) → result ≡ Err (EnrolError.Lost v)
            → (seat.old.view.saw < v) × (v ≤ 64) × (seat.new ≡ record seat.old { view = has_seen seat.old.view v }) }
    {
        if seat.saw == 64 {
            return Err(EnrolError::Full);
        }
        let seen = seat.saw;
        let found = self
            .table
            .shared
            .compare_exchange::<Enrol>(&mut seat.place, 0, seen, seen + 1);
        if found == seen {
            seat.saw = seen + 1;
            seat.mark = seat.mark.max(seen + 1);
            Ok(seen as u32)
        } else {
            seat.saw = found;
            Err(EnrolError::Lost(found))
        }
    }

    /// One compare_exchange of word i, from 0 to the seat's greatest number plus 1.
    pub fn try_take(&self, seat: &mut Seat, i: u32) -> bool
        requires board { seat.old.board ≡ self.now.name }
        requires enrolled { 0 < mark_of seat.old.view.numbers }
        requires element { (0 < i) × (i ≤ self.now.count) }
        ensures won { IsTrue result
            → (seat.new ≡ record seat.old { view = has_taken seat.old.view i (mark_of seat.old.view.numbers - 1) })
            × (elements i seat.old.view.held ≡ 0) }
        ensures missed { ¬ IsTrue result → (w : ℕ) × (w ≢ 0)
            × (seat.new ≡ record seat.old { view = has_missed seat.old.view i w })
            × (elements i seat.old.view.held ≡ 0 → times (w - 1) seat.old.view.numbers ≡ 0) }
    {
        let mark = seat.mark;
        let found = self
            .table
            .shared
            .compare_exchange::<Take>(&mut seat.place, i as usize, 0, mark);
        found == 0
    }

    /// One store of 0.
    pub fn put_back(&self, seat: &mut Seat, i: u32)
        requires board { seat.old.board ≡ self.now.name }
        requires element { (0 < i) × (i ≤ self.now.count) }
        requires held { 0 < elements i seat.old.view.held }
        ensures { seat.new ≡ record seat.old { view = has_put seat.old.view i } }
    {
        self.table
            .shared
            .store::<Put>(&mut seat.place, i as usize, 0);
    }

    /// A new seat with nothing in it.
    pub fn split(&self, seat: &mut Seat) -> Seat
        requires board { seat.old.board ≡ self.now.name }
        ensures same { seat.new ≡ seat.old }
        ensures empty { (result.board ≡ self.now.name) × (result.view ≡ nothing) }
    {
        let place = self.table.shared.split_seat::<Notes>(&mut seat.place);
        Seat {
            place,
            saw: 0,
            mark: 0,
        }
    }

    /// The first seat then holds what both held, no element twice.
    pub fn join(&self, seat: &mut Seat, other: Seat)
        requires board { (seat.old.board ≡ self.now.name) × (other.board ≡ self.now.name) }
        ensures both { seat.new ≡ record seat.old { view = has_joined seat.old.view other.view } }
        ensures once { (i : ℕ) → 0 < i → elements i seat.new.view.held ≤ 1 }
    {
        let Seat {
            place,
            saw: _,
            mark,
        } = other;
        self.table.shared.join_seat::<Notes>(&mut seat.place, place);
        seat.mark = seat.mark.max(mark);
        self.table.shared.load::<Tell>(&mut seat.place, 0);
    }

    /// The words as they last stood.
    pub fn close(self, seat: Seat) -> Words
        requires board { seat.board ≡ self.name }
        ensures counts { length result ≡ self.count + 1 }
        ensures most { slice_index result 0 ≤ 64 }
        ensures stand { AllHeld (λ p. (0 < p.0) × (slice_index result p.0 ≡ p.1 + 1)) seat.view.held }
    {
        let Board { table, n } = self;
        let Seat {
            place,
            saw: _,
            mark: _,
        } = seat;
        let closed = table.close_with(place);
        Words { closed, n }
    }
}

/// The words of a closed board, from word 0 on.
pub struct Words {
    closed: Closed<(), Global>,
    n: u32,
}

impl Model for Words {
    ghost use Rattle.std.specs.Prelude.{◌≡◌, ◌+◌, List, ℕ};
    ghost use Rattle.std.specs.Mem.Slots.{slots_items, slots_len, IsFull};

    ghost Value = { List ℕ };

    ghost view = { λ w. slots_items w.closed.words };

    ghost invariant = { λ w. (slots_len w.closed.words ≡ w.n + 1) × (slots_len w.closed.slots ≡ 0)
        × IsFull w.closed.words };
}

impl Words {
    /// Word i as it last stood.
    pub fn at(&self, i: u32) -> u64
        requires { i < length self.now }
        ensures { result ≡ slice_index self.now i }
    {
        self.closed.word(i as usize)
    }
}

impl Drop for Words {
    fn drop(self) {
        let Words { closed, n: _ } = self;
        closed.free();
    }
}
