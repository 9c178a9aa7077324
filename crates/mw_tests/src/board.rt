// Seats on a board, one after another and two at once.
ghost use Rattle.std.specs.Prelude.{◌≡◌, ◌<◌};
ghost use Rattle.mw_board.specs.Rule.{mark_of};

use mw_board::{Board, EnrolError, Seat};
use std::test::Fail;
use std::thread::{Threads, join_mut};

#[test]
fn two_seats_take_turns(rt: HostRuntime) -> Result<(), Fail> {
    let (board, mut first) = Board::new(rt.alloc(), 3)?;
    let mut second = board.split(&mut first);
    assert!(rt; board.look(&mut first) == 0 && board.look(&mut second) == 0);
    let Ok(number) = board.enrol(&mut first) else {
        return Err(Fail::from("not enrolled"));
    };
    assert_eq!(rt; number, 0);
    let lost = board.enrol(&mut second);
    assert!(rt; lost == Err(EnrolError::Lost(1)));
    let Ok(number) = board.enrol(&mut second) else {
        return Err(Fail::from("not enrolled"));
    };
    assert_eq!(rt; number, 1);
    let took = board.try_take(&mut first, 2);
    assert!(rt; took && !board.try_take(&mut second, 2));
    if took {
        board.put_back(&mut first, 2);
    }
    assert!(rt; board.try_take(&mut second, 2));
    board.join(&mut first, second);
    let words = board.close(first);
    assert!(rt; words.at(0) == 2 && words.at(1) == 0 && words.at(2) == 2 && words.at(3) == 0);
    Ok(())
}

#[test]
fn a_board_is_full_with_64_seats(rt: HostRuntime) -> Result<(), Fail> {
    let (board, mut seat) = Board::new(rt.alloc(), 0)?;
    for number in 0..64 {
        assert!(rt; board.enrol(&mut seat) == Ok(number));
    }
    assert!(rt; board.enrol(&mut seat) == Err(EnrolError::Full));
    let words = board.close(seat);
    assert_eq!(rt; words.at(0), 64);
    Ok(())
}

/// How many elements a seat gets, of so many.
fn take_all(board: &Board, seat: &mut Seat, count: u32) -> u32
    requires board { seat.old.board ≡ board.now.name }
    requires enrolled { 0 < mark_of seat.old.view.numbers }
    requires size { count ≡ board.now.count }
    ensures { seat.new.board ≡ seat.old.board }
{
    let mut taken = 0u32;
    for i in 0..count {
        if board.try_take(seat, i + 1) {
            taken = taken.saturating_add(1);
        }
    }
    taken
}

/// How many elements each of two seats gets, at once.
fn race<R: Threads + Sync>(
    rt: &R,
    board: &Board,
    first: &mut Seat,
    second: &mut Seat,
    count: u32,
) -> (u32, u32)
    requires boards { (first.old.board ≡ board.now.name) × (second.old.board ≡ board.now.name) }
    requires enrolled { (0 < mark_of first.old.view.numbers) × (0 < mark_of second.old.view.numbers) }
    requires size { count ≡ board.now.count }
    ensures first { first.new.board ≡ first.old.board }
    ensures second { second.new.board ≡ second.old.board }
{
    join_mut(
        rt,
        &mut || take_all(board, first, count),
        &mut || take_all(board, second, count),
    )
}

#[test]
fn each_element_is_taken_once(rt: HostRuntime) -> Result<(), Fail> {
    let (board, mut first) = Board::new(rt.alloc(), 100_000)?;
    let mut second = board.split(&mut first);
    let Ok(_) = board.enrol(&mut first) else {
        return Err(Fail::from("not enrolled"));
    };
    board.look(&mut second);
    let Ok(_) = board.enrol(&mut second) else {
        return Err(Fail::from("not enrolled"));
    };
    let (one, other) = race(&rt, &board, &mut first, &mut second, 100_000);
    assert_eq!(rt; one.saturating_add(other), 100_000);
    board.join(&mut first, second);
    let words = board.close(first);
    assert_eq!(rt; words.at(0), 2);
    Ok(())
}
