//! A draw board shared by two threads, each with half of the seats.
ghost use Rattle.std.specs.Prelude.{◌≡◌, ◌+◌, false, length, IfOk};
ghost use Rattle.std.specs.List.{AllByRecursion};
ghost use Rattle.draw_board.specs.Draws.{AreSeatsFrom, IsNewSeat, IsSameSeat, IsSeatOf, has_drawn_none};

use draw_board::{DrawBoard, DrawSeat};
use std::alloc::{AllocError, Global};
use std::test::*;
use std::thread;
use std::thread::Threads;

const POSITIONS: u32 = 4_000;

const HALF: u32 = 16;

/// Draws until none is left.
fn draw_all(board: &DrawBoard, seat: &mut DrawSeat, drawn: &mut Vec<u32>) -> Result<(), AllocError>
    requires board { IsSeatOf board.now seat.old }
    requires more { has_drawn_none seat.old ≡ false }
    ensures { IsSameSeat seat.old seat.new }
{
    while let Some(position) = board.draw(seat) {
        drawn.push(position)?;
    }
    Ok(())
}

#[derive(Drop)]
struct Drawn {
    seats: Vec<DrawSeat>,
    positions: Vec<u32>,
}

/// The draws of one thread: with one of its seats after another.
fn draw(
    board: &DrawBoard,
    alloc: Global,
    from: u32,
    seats: Vec<DrawSeat>,
) -> Result<Drawn, AllocError>
    requires seats { AreSeatsFrom board.now from seats.items }
    requires new { AllByRecursion IsNewSeat seats.items }
    ensures { IfOk result (λ done. AreSeatsFrom board.now from done.seats.items × (length done.seats.items ≡ length seats.items)) }
{
    let mut done = Drawn {
        seats: Vec::new(alloc),
        positions: Vec::new(alloc),
    };
    for mut seat in seats {
        draw_all(board, &mut seat, &mut done.positions)?;
        done.seats.push(seat)?;
    }
    Ok(done)
}

/// Both halves of the seats at work, each in a thread.
fn draw_both<R: Threads + Sync>(
    rt: &R,
    board: &DrawBoard,
    alloc: Global,
    first: Vec<DrawSeat>,
    second: Vec<DrawSeat>,
) -> Result<(Drawn, Drawn), AllocError>
    requires first { AreSeatsFrom board.now 0 first.items × (length first.items ≡ HALF) × AllByRecursion IsNewSeat first.items }
    requires second { AreSeatsFrom board.now HALF second.items × (length second.items ≡ HALF) × AllByRecursion IsNewSeat second.items }
    ensures { IfOk result (λ done. AreSeatsFrom board.now 0 done.0.seats.items × (length done.0.seats.items ≡ HALF) × AreSeatsFrom board.now HALF done.1.seats.items × (length done.1.seats.items ≡ HALF)) }
{
    let (one, other) = thread::join(
        rt,
        move || -> Result<Drawn, AllocError>
            requires { AreSeatsFrom board.now 0 first.items × (length first.items ≡ HALF) × AllByRecursion IsNewSeat first.items }
            ensures { IfOk result (λ done. AreSeatsFrom board.entry.now 0 done.seats.items × (length done.seats.items ≡ HALF)) }
        { draw(board, alloc, 0, first) },
        move || -> Result<Drawn, AllocError>
            requires { AreSeatsFrom board.now HALF second.items × (length second.items ≡ HALF) × AllByRecursion IsNewSeat second.items }
            ensures { IfOk result (λ done. AreSeatsFrom board.entry.now HALF done.seats.items × (length done.seats.items ≡ HALF)) }
        { draw(board, alloc, HALF, second) },
    );
    Ok((one?, other?))
}

/// Whether these are all positions in order.
fn are_all(positions: &[u32]) -> bool {
    positions.iter().copied().eq(0..POSITIONS)
}

#[test]
fn two_threads_draw_each_position_once(rt: HostRuntime) -> Result<(), Fail> {
    let (board, mut first) = DrawBoard::new(rt.alloc(), POSITIONS, 2 * HALF)?;
    let second = first.split_off(HALF as usize)?;
    let (one, mut other) = draw_both(&rt, &board, rt.alloc(), first, second)?;
    let Drawn {
        mut seats,
        mut positions,
    } = one;
    seats.append(&mut other.seats)?;
    positions.append(&mut other.positions)?;
    positions.sort_unstable();
    assert!(rt; board.close(seats) == POSITIONS && are_all(&positions));
    Ok(())
}
