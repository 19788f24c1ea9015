//! Handing out what workers need, and taking it back, by moving it.
ghost use Rattle.std.specs.Prelude.{◌≡◌, ◌<◌, ◌≤◌, ◌+◌, [], ◌∷◌, ◌++◌, length, take, drop, IfOk, OnErr, vec_capacity};
ghost use Rattle.std.specs.List.{AllByRecursion};
ghost use Rattle.build_round.specs.inner.Handing.{AreMadeOf, IsIdle, readers_of};

use crate::part::{Bench, Part};
use claim_board::ClaimSeat;
use draw_board::DrawSeat;
use pack_util::NoMemory;
use resolve_path::ManifestCache;
use std::alloc::Global;

/// The parts of a round, and the readers beyond them.
#[derive(Drop)]
pub(crate) struct Handed<R> {
    pub(crate) parts: Vec<Part<R>>,
    pub(crate) others: Vec<R>,
}

/// Adds a member where there is room for it, which takes no memory.
fn push_within<T: Drop>(members: &mut Vec<T>, member: T)
    requires { length members.old.items < vec_capacity members.old }
    ensures { (members.new.items ≡ members.old.items ++ member ∷ []) × (vec_capacity members.old ≤ vec_capacity members.new) }
{
    if members.push(member).is_err() {
        unreachable!()
    }
}

/// Moves the last member out.
fn take_last<T>(members: &mut Vec<T>) -> T
    requires { 0 < length members.old.items }
    ensures { (members.old.items ≡ members.new.items ++ result ∷ []) × (vec_capacity members.new ≡ vec_capacity members.old) }
{
    match members.pop() {
        Some(member) => member,
        None => unreachable!(),
    }
}

fn idle<R>(
    alloc: Global,
    reader: R,
    seat: ClaimSeat,
    cache: ManifestCache,
    hand: DrawSeat,
) -> Part<R>
    ensures { (result.bench.reader ≡ reader) × (result.bench.seat ≡ seat) × (result.bench.cache ≡ cache) × (result.hand ≡ hand) × IsIdle result }
{
    let kept = Vec::new(alloc);
    let bench = Bench {
        reader,
        seat,
        cache,
        kept,
    };
    Part {
        bench,
        hand,
        end: Ok(()),
    }
}

/// Makes a part for each seat: part i has reader i, seat i, cache i and draw seat i. After an Err nothing has moved.
pub(crate) fn hand_out<R: Drop>(
    alloc: Global,
    readers: &mut Vec<R>,
    seats: &mut Vec<ClaimSeat>,
    caches: &mut Vec<ManifestCache>,
    hands: &mut Vec<DrawSeat>,
) -> Result<Handed<R>, NoMemory>
    requires readers { length seats.old.items ≤ length readers.old.items }
    requires caches { length caches.old.items ≡ length seats.old.items }
    requires hands { length hands.old.items ≡ length seats.old.items }
    ensures parts { IfOk result (λ handed. AreMadeOf (take (length seats.old.items) readers.old.items) seats.old.items caches.old.items hands.old.items handed.parts.items) }
    ensures idle { IfOk result (λ handed. AllByRecursion IsIdle handed.parts.items) }
    ensures others { IfOk result (λ handed. handed.others.items ≡ drop (length seats.old.items) readers.old.items) }
    ensures rest { IfOk result (λ _. (readers.new.items ≡ []) × (seats.new.items ≡ []) × (caches.new.items ≡ []) × (hands.new.items ≡ [])) }
    ensures room { IfOk result (λ _. (length readers.old.items ≤ vec_capacity readers.new) × (length seats.old.items ≤ vec_capacity seats.new) × (length seats.old.items ≤ vec_capacity caches.new) × (length seats.old.items ≤ vec_capacity hands.new)) }
    ensures err { OnErr result ((readers.new.items ≡ readers.old.items) × (seats.new.items ≡ seats.old.items) × (caches.new.items ≡ caches.old.items)) }
{
    let mut parts = Vec::with_capacity(alloc, seats.len())?;
    let others = readers.split_off(seats.len())?;
    while !seats.is_empty() {
        let reader = take_last(readers);
        let seat = take_last(seats);
        let cache = take_last(caches);
        let hand = take_last(hands);
        push_within(&mut parts, idle(alloc, reader, seat, cache, hand));
    }
    parts.reverse();
    Ok(Handed { parts, others })
}

/// Takes the parts apart into lists that have room for them.
pub(crate) fn hand_back<R: Drop>(
    handed: Handed<R>,
    readers: &mut Vec<R>,
    seats: &mut Vec<ClaimSeat>,
    caches: &mut Vec<ManifestCache>,
    hands: &mut Vec<DrawSeat>,
)
    requires rest { (readers.old.items ≡ []) × (seats.old.items ≡ []) × (caches.old.items ≡ []) × (hands.old.items ≡ []) }
    requires room { (length handed.parts.items + length handed.others.items ≤ vec_capacity readers.old) × (length handed.parts.items ≤ vec_capacity seats.old) × (length handed.parts.items ≤ vec_capacity caches.old) × (length handed.parts.items ≤ vec_capacity hands.old) }
    ensures readers { readers.new.items ≡ readers_of handed.parts.items ++ handed.others.items }
    ensures parts { AreMadeOf (readers_of handed.parts.items) seats.new.items caches.new.items hands.new.items handed.parts.items }
{
    let Handed { parts, mut others } = handed;
    for part in parts {
        let Part {
            bench,
            hand,
            end: _,
        } = part;
        let Bench {
            reader,
            seat,
            cache,
            kept: _,
        } = bench;
        push_within(readers, reader);
        push_within(seats, seat);
        push_within(caches, cache);
        push_within(hands, hand);
    }
    if readers.append(&mut others).is_err() {
        unreachable!()
    }
}
