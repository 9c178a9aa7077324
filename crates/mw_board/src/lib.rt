//! A board of elements that workers take and put back, without a lock: one word an element and one that counts the
//! workers, over atomic_table.
//!
//! [`Board::new`] gives a board of n elements with its first [`Seat`]; `split` makes more. A seat is what one worker
//! steps with: it keeps what it saw in word 0 and the greatest of its numbers, and in proofs a view (specs/Rule): its
//! numbers, the pairs of an element and a number that it holds, what it saw, and the words at which it missed. Word 0
//! counts the numbers that were given, word i is 0 or one more than the number that holds element i.
//!
//! - The rule (`BoardRule`) holds between any two steps, whatever the schedule: it is the table's own, and `rule` says
//!   it. Word 0 is at most 64 and at least what any view saw; all numbers in views differ and are below word 0; word i
//!   is k + 1 exactly where one view holds (i, k), with k among its numbers; no element is held twice, in one view or
//!   in two.
//! - `look` loads word 0. `enrol` answers `Full` exactly where the seat saw 64, and then makes no step; else it is one
//!   compare_exchange of word 0, from what the seat saw to one more, and answers that number, or `Lost` with the word
//!   that it found, which is greater. `try_take` is one compare_exchange of word i, from 0 to one more than the seat's
//!   greatest number: true exactly where the element is now the seat's; false exactly where it found another word,
//!   which the view then has as a miss. `put_back` stores 0. What no clause names, of the view, stays as it was.
//! - `join` leaves the first seat with the numbers and pairs of both, no element twice. It loads word 0 once more than
//!   `split` does. `close` ends the board, and tells that each pair of the seat stands in its word; `at` reads them.
//!
//! Conditions: each call's seats are this board's; elements are from 1 to n, and for `at` from 0 to n; who takes has
//! enrolled, and who puts back holds. Only `new` takes memory, and its want is the only error; no call waits, as the
//! signatures say.
//!
//! Not claimed: that anyone wins, or how soon. A seat that is dropped keeps its elements.
#![tactic(auto)]

mod board;
mod seat;
mod view;

ghost use Rattle.std.specs.Prelude.{List, ℕ};
ghost use Rattle.mw_board.specs.Rule.{BoardRule, Kept};
ghost use Rattle.mw_board.specs.declared.view.View.{View as ViewOf};

pub use board::{Board, EnrolError, Words};
pub use seat::Seat;
pub use view::View;

/// What holds of each board's words and views, between any two steps.
pub fn rule()
    ensures { (n : ℕ) (words : List ℕ) (views : List ViewOf) → Kept n words views → BoardRule words views }
{}
