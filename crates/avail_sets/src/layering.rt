//! Layers of groups by the number of steps to a group, over groups that don't reach a module.

ghost use Rattle.std.specs.Prelude.{◌≡◌, ℕ, ◌<◌, ◌↔◌, false, true, [], ◌∷◌, length, slice_set, IfOk, IsTrue, MatchOption};
ghost use Rattle.bit_rows.specs.Table.{blank};
ghost use Rattle.chunk_groups.specs.Net.{Net};
ghost use Rattle.chunk_groups.specs.Rows.{bit, bit_in};
ghost use Rattle.avail_sets.specs.inner.Falling.{AreOpened, SaysWhich};
ghost use Rattle.avail_sets.specs.inner.Layers.{AreEven, AreLayers, IsSearched};

use bit_rows::{BitRow, BitTable};
use pack_util::NoMemory;
use std::alloc::Global;

/// The groups that don't reach the module.
pub(crate) fn lacking(alloc: Global, reach: &BitTable, m: u32) -> Result<BitRow, NoMemory>
    requires { m < reach.now.width }
    ensures len { IfOk result (λ row. length row ≡ length reach.now.rows) }
    ensures lacking { IfOk result (λ row. SaysWhich (λ p. bit_in reach.now.rows p m ≡ false) row (length reach.now.rows)) }
{
    let mut row = BitRow::new(alloc, reach.rows())?;
    for p in 0..reach.rows() {
        row.set(p, !reach.row(p).get(m));
    }
    Ok(row)
}

fn leads_into(opened: &BitTable, left: &BitRow, layer: &BitRow, p: u32) -> bool
    requires in_range { (p < length opened.now.rows) × (p < length left.now) }
    requires len { length layer.now ≡ opened.now.width }
    ensures { IsTrue result ↔ (IsTrue (bit left.now p) × ((q : ℕ) × IsTrue (bit layer.now q) × IsTrue (bit_in opened.now.rows p q))) }
{
    if !left.get(p) {
        return false;
    }
    opened.row(p).first_common(layer).is_some()
}

fn next_layer(
    alloc: Global,
    opened: &BitTable,
    left: &BitRow,
    layer: &BitRow,
) -> Result<BitRow, NoMemory>
    requires sized { (length opened.now.rows ≡ length left.now) × (length layer.now ≡ opened.now.width) }
    ensures len { IfOk result (λ next. length next ≡ length left.now) }
    ensures next { IfOk result (λ next. SaysWhich
        (λ p. IsTrue (bit left.now p) × ((q : ℕ) × IsTrue (bit layer.now q) × IsTrue (bit_in opened.now.rows p q))) next (length left.now)) }
{
    let mut next = BitRow::new(alloc, left.len())?;
    for p in 0..left.len() {
        next.set(p, leads_into(opened, left, layer, p));
    }
    Ok(next)
}

/// The layer of the group itself.
pub(crate) fn first_layers(alloc: Global, count: u32, g: u32) -> Result<Vec<BitRow>, NoMemory>
    requires { g < count }
    ensures { IfOk result (λ layers. layers.items ≡ slice_set (blank count) g true ∷ []) }
{
    let mut layers = Vec::new(alloc);
    let mut row = BitRow::new(alloc, count)?;
    row.set(g, true);
    layers.push(row)?;
    Ok(layers)
}

/// Adds layers until one has an entry, whose least is the answer, or until no group that is left leads into the last.
pub(crate) fn search(
    alloc: Global,
    opened: &BitTable,
    entries: &BitRow,
    left: &mut BitRow,
    layers: &mut Vec<BitRow>,
) -> Result<Option<u32>, NoMemory>
    requires sized { AreEven opened.now entries.now left.old layers.old.items }
    ensures sized { IfOk result (λ found. AreEven opened.now entries.now left.new layers.new.items) }
    ensures in_range { IfOk result (λ found. MatchOption found (Unit {0}) (λ first. first < length opened.now.rows)) }
    ensures found { IfOk result (λ found. (net : Net) (g m : ℕ) → AreOpened net opened.now.rows
        → length entries.now ≡ net.groups → SaysWhich (λ p. IsTrue (net.is_entry p)) entries.now net.groups
        → AreLayers net g m layers.old.items left.old → IsSearched net g m layers.new.items found) }
{
    'deepen: loop {
        let last = &layers[layers.len() - 1];
        if let Some(first) = last.first_common(entries) {
            return Ok(Some(first));
        }
        let next = next_layer(alloc, opened, left, last)?;
        if next.next_from(0).is_none() {
            return Ok(None);
        }
        left.minus(&next);
        layers.push(next)?;
    }
}
