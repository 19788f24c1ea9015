//! Both boards shared by two threads, each with half of the seats.
ghost use Rattle.std.specs.Prelude.{◌≡◌, ◌+◌, ◌<◌, ◌^◌, false, length, IfOk};
ghost use Rattle.claim_board.specs.Claims.{AreSeatsFrom, IsSameSeat, IsSeatOf, board_files};

use crate::claims::record;
use claim_board::{Claim, ClaimBoard, ClaimSeat, Owners};
use graph_types::ModRecord;
use pack_util::FileId;
use std::alloc::{AllocError, Global};
use std::test::*;
use std::thread;
use std::thread::Threads;

const FILES: u32 = 2_000;

const HALF: u32 = 16;

/// Who a seat was told owns the file, and none where it claimed the file itself and published its record.
fn build(board: &ClaimBoard, seat: &mut ClaimSeat, alloc: Global, file: u32) -> Option<u32>
    requires board { IsSeatOf board.now seat.old }
    requires file { file < board_files board.now }
    ensures { IsSameSeat seat.old seat.new }
{
    match board.claim(seat, FileId(file)) {
        Claim::New(ticket) => {
            board.publish(seat, ticket, record(alloc, file));
            None
        }
        Claim::Known(owner) => Some(owner),
    }
}

/// Goes through all files, up or down, and adds to each file's owner as it was told.
fn build_all(
    board: &ClaimBoard,
    seat: &mut ClaimSeat,
    alloc: Global,
    number: u32,
    is_upward: bool,
    told: &mut Vec<(u32, u32)>,
) -> Result<(), AllocError>
    requires board { IsSeatOf board.now seat.old }
    requires files { board_files board.now ≡ FILES }
    ensures { IsSameSeat seat.old seat.new }
{
    for step in 0..FILES {
        let file = if is_upward { step } else { FILES - 1 - step };
        match build(board, seat, alloc, file) {
            None => told.push((file, number))?,
            Some(owner) => told.push((file, owner))?,
        }
    }
    Ok(())
}

#[derive(Drop)]
struct Done {
    seats: Vec<ClaimSeat>,
    /// Files with the owners that the seats were told.
    told: Vec<(u32, u32)>,
}

/// The work of one thread: its seats, numbered from a number on, one after another.
fn work(
    board: &ClaimBoard,
    alloc: Global,
    from: u32,
    seats: Vec<ClaimSeat>,
) -> Result<Done, AllocError>
    requires files { board_files board.now ≡ FILES }
    requires seats { AreSeatsFrom board.now from seats.items }
    requires few { from + length seats.items < 2 ^ 32 }
    ensures { IfOk result (λ done. AreSeatsFrom board.now from done.seats.items × (length done.seats.items ≡ length seats.items)) }
{
    let mut done = Done {
        seats: Vec::new(alloc),
        told: Vec::new(alloc),
    };
    let mut number = from;
    for mut seat in seats {
        build_all(board, &mut seat, alloc, number, from == 0, &mut done.told)?;
        done.seats.push(seat)?;
        number += 1;
    }
    Ok(done)
}

/// Both halves of the seats at work, each in a thread.
fn work_both<R: Threads + Sync>(
    rt: &R,
    board: &ClaimBoard,
    alloc: Global,
    first: Vec<ClaimSeat>,
    second: Vec<ClaimSeat>,
) -> Result<(Done, Done), AllocError>
    requires files { board_files board.now ≡ FILES }
    requires first { AreSeatsFrom board.now 0 first.items × (length first.items ≡ HALF) }
    requires second { AreSeatsFrom board.now HALF second.items × (length second.items ≡ HALF) }
    ensures { IfOk result (λ done. AreSeatsFrom board.now 0 done.0.seats.items × (length done.0.seats.items ≡ HALF) × AreSeatsFrom board.now HALF done.1.seats.items × (length done.1.seats.items ≡ HALF)) }
{
    let (one, other) = thread::join(
        rt,
        move || -> Result<Done, AllocError>
            requires { (board_files board.now ≡ FILES) × AreSeatsFrom board.now 0 first.items × (length first.items ≡ HALF) }
            ensures { IfOk result (λ done. AreSeatsFrom board.entry.now 0 done.seats.items × (length done.seats.items ≡ HALF)) }
        { work(board, alloc, 0, first) },
        move || -> Result<Done, AllocError>
            requires { (board_files board.now ≡ FILES) × AreSeatsFrom board.now HALF second.items × (length second.items ≡ HALF) }
            ensures { IfOk result (λ done. AreSeatsFrom board.entry.now HALF done.seats.items × (length done.seats.items ≡ HALF)) }
        { work(board, alloc, HALF, second) },
    );
    Ok((one?, other?))
}

/// Whether each seat was told the owner that the closed board has.
fn are_told(owners: &Owners, told: &[(u32, u32)]) -> bool
    requires { length owners.now ≡ FILES }
{
    for (file, owner) in told {
        if *file >= FILES || owners.owner(FileId(*file)) != Some(*owner) {
            return false;
        }
    }
    true
}

/// Whether each file has its record.
fn are_published(alloc: Global, records: &[Option<ModRecord>]) -> bool {
    for file in 0..FILES {
        match records.get(file as usize) {
            Some(Some(published)) if *published == record(alloc, file) => {}
            _ => return false,
        }
    }
    true
}

#[test]
fn two_threads_claim_and_publish(rt: HostRuntime) -> Result<(), Fail> {
    let (board, mut first) = ClaimBoard::new(rt.alloc(), FILES, 2 * HALF)?;
    let second = first.split_off(HALF as usize)?;
    let (one, mut other) = work_both(&rt, &board, rt.alloc(), first, second)?;
    let Done {
        mut seats,
        mut told,
    } = one;
    seats.append(&mut other.seats)?;
    told.append(&mut other.told)?;
    let Ok((owners, records)) = board.close(rt.alloc(), seats) else {
        return Err(Fail::from("the board was not closed"));
    };
    let are_all = told.len() == (FILES * 2 * HALF) as usize;
    assert!(rt; are_all && are_told(&owners, &told) && are_published(rt.alloc(), &records));
    Ok(())
}
