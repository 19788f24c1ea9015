//! Rows that fall until each group has handed down what it has there and what it brings.

ghost use Rattle.std.specs.Prelude.{◌≡◌, ◌≢◌, ◌<◌, [], false, length, slice_index_or, slice_set, OnOk, IsTrue, MatchOption};
ghost use Rattle.std.specs.Bool.{MatchBool};
ghost use Rattle.bit_rows.specs.Places.{meet, union, IsTrueAt, NoneTrue};
ghost use Rattle.bit_rows.specs.Table.{Table};
ghost use Rattle.chunk_groups.specs.Net.{Net};
ghost use Rattle.chunk_groups.specs.Rows.{bit, bit_in};
ghost use Rattle.chunk_groups.specs.Serving.{Holds};
ghost use Rattle.avail_sets.specs.inner.Falling.{AreOpened, AreSized, IsFalling, IsHandedDown};

use bit_rows::{BitRow, BitTable};
use pack_util::NoMemory;
use std::alloc::Global;

/// Keeps in a row of the table what is in the other row too, and says whether that changed it.
fn meet_row(table: &mut BitTable, at: u32, other: &BitRow, spare: &mut BitRow) -> bool
    requires in_range { at < length table.old.rows }
    requires len { length other.now ≡ table.old.width }
    requires spare { length spare.old ≡ table.old.width }
    ensures table { table.new ≡ record table.old { rows = slice_set table.old.rows at (meet (slice_index_or table.old.rows at []) other.now) } }
    ensures spare { length spare.new ≡ table.old.width }
    ensures len { length (slice_index_or table.old.rows at []) ≡ length other.now }
    ensures changed { MatchBool result
        (meet (slice_index_or table.old.rows at []) other.now ≢ slice_index_or table.old.rows at [])
        (meet (slice_index_or table.old.rows at []) other.now ≡ slice_index_or table.old.rows at []) }
{
    table.swap_row(at, spare);
    let fell = spare.meet_with(other);
    table.swap_row(at, spare);
    fell
}

/// Hands a row down to one group, which is pending where that changed its row.
fn lower(avail: &mut BitTable, pending: &mut BitRow, g: u32, down: &BitRow, spare: &mut BitRow)
    requires in_range { (g < length avail.old.rows) × (g < length pending.old) }
    requires len { length down.now ≡ avail.old.width }
    requires spare { length spare.old ≡ avail.old.width }
    ensures spare { length spare.new ≡ avail.old.width }
    ensures handed { IsHandedDown (λ k. k ≡ g) down.now avail.old avail.new pending.old pending.new }
{
    if !meet_row(avail, g, down, spare) {
        return;
    }
    pending.set(g, true);
}

fn hand_down(
    opened: &BitRow,
    down: &BitRow,
    avail: &mut BitTable,
    pending: &mut BitRow,
    spare: &mut BitRow,
)
    requires opened { length opened.now ≡ length pending.old }
    requires rows { length avail.old.rows ≡ length pending.old }
    requires len { length down.now ≡ avail.old.width }
    requires spare { length spare.old ≡ avail.old.width }
    ensures spare { length spare.new ≡ avail.old.width }
    ensures handed { IsHandedDown (λ k. IsTrue (bit opened.now k)) down.now avail.old avail.new pending.old pending.new }
{
    let end = opened.len();
    let mut at = 0;
    while let Some(g) = opened.next_from(at) {
        prove!(g < end);
        lower(avail, pending, g, down, spare);
        at = g + 1;
    }
}

/// A pending group hands down what it has there and what it brings.
fn visit(
    opened: &BitTable,
    brought: &BitTable,
    p: u32,
    avail: &mut BitTable,
    pending: &mut BitRow,
    down: &mut BitRow,
    spare: &mut BitRow,
)
    requires sized { AreSized opened.now brought.now avail.old pending.old down.old spare.old }
    requires in_range { p < length pending.old }
    ensures sized { AreSized opened.now brought.now avail.new pending.new down.new spare.new }
    ensures even { length (slice_index_or avail.old.rows p []) ≡ length (slice_index_or brought.now.rows p []) }
    ensures handed { IsHandedDown (λ g. IsTrue (bit_in opened.now.rows p g))
        (union (slice_index_or avail.old.rows p []) (slice_index_or brought.now.rows p []))
        avail.old avail.new (slice_set pending.old p false) pending.new }
{
    pending.set(p, false);
    down.copy_from(avail.row(p));
    down.union_with(brought.row(p));
    hand_down(opened.row(p), down, avail, pending, spare);
}

/// A pending group, sought from a place on and then from the first.
fn next_around(pending: &BitRow, from: u32) -> Option<u32>
    ensures { MatchOption result (NoneTrue pending.now 0 (length pending.now)) (IsTrueAt pending.now) }
{
    let Some(p) = pending.next_from(from) else {
        let first = pending.next_from(0);
        return first;
    };
    Some(p)
}

/// Lets rows fall until no group is pending.
pub(crate) fn fall(
    alloc: Global,
    opened: &BitTable,
    brought: &BitTable,
    avail: &mut BitTable,
    pending: &mut BitRow,
) -> Result<(), NoMemory>
    requires opened { (length opened.now.rows ≡ length pending.old) × (opened.now.width ≡ length pending.old) }
    requires brought { (length brought.now.rows ≡ length pending.old) × (brought.now.width ≡ avail.old.width) }
    requires avail { length avail.old.rows ≡ length pending.old }
    ensures quiet { OnOk result (NoneTrue pending.new 0 (length pending.new)) }
    ensures rows { OnOk result (length avail.new.rows ≡ length avail.old.rows) }
    ensures width { OnOk result (avail.new.width ≡ avail.old.width) }
    ensures fallen { OnOk result ((net : Net) → AreOpened net opened.now.rows → length pending.old ≡ net.groups
        → IsFalling net (Holds (bit_in brought.now.rows)) avail.old.width avail.old.rows pending.old
        → IsFalling net (Holds (bit_in brought.now.rows)) avail.old.width avail.new.rows pending.new) }
{
    let mut down = BitRow::new(alloc, avail.width())?;
    let mut spare = BitRow::new(alloc, avail.width())?;
    let mut from = 0;
    while let Some(p) = next_around(pending, from) {
        visit(opened, brought, p, avail, pending, &mut down, &mut spare);
        from = p;
    }
    Ok(())
}
