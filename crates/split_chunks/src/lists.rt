//! Rows as lists of numbers, lists as rows, and rows copied.
ghost use Rattle.std.specs.Prelude.{◌≡◌, ℕ, ◌<◌, ◌≤◌, ◌-◌, ◌++◌, ◌||◌, ◌==◌, true, length, map, slice_set, IfOk};
ghost use Rattle.graph_types.specs.Modules.{module_no};
ghost use Rattle.chunk_graph.specs.Chunks.{is_in};
ghost use Rattle.chunk_graph.specs.Moves.{chunk_no};
ghost use Rattle.bit_rows.specs.Table.{blank};
ghost use Rattle.split_plan.specs.Order.{places};
ghost use Rattle.split_chunks.specs.Rules.{listed_row, same_chunks, same_modules};

use bit_rows::BitRow;
use pack_util::{ChunkNo, ModuleNo, NoMemory, Seq};
use std::alloc::Global;

pub fn chunk_numbers(alloc: Global, row: &BitRow) -> Result<Seq<ChunkNo>, NoMemory>
    ensures { IfOk result (λ list. list ≡ map chunk_no (places row.now)) }
{
    let _len = row.len();
    let mut list = Vec::new(alloc);
    let mut at = 0;
    while let Some(place) = row.next_from(at) {
        list.push(ChunkNo(place))?;
        at = place + 1;
    }
    Ok(Seq::from_vec(list))
}

pub fn module_numbers(alloc: Global, row: &BitRow) -> Result<Seq<ModuleNo>, NoMemory>
    ensures { IfOk result (λ list. list ≡ map module_no (places row.now)) }
{
    let _len = row.len();
    let mut list = Vec::new(alloc);
    let mut at = 0;
    while let Some(place) = row.next_from(at) {
        list.push(ModuleNo(place))?;
        at = place + 1;
    }
    Ok(Seq::from_vec(list))
}

/// The row with more places, which aren't true.
pub fn grown(alloc: Global, row: &BitRow, len: u32) -> Result<BitRow, NoMemory>
    requires { length row.now ≤ len }
    ensures { IfOk result (λ copy. copy ≡ row.now ++ blank (len - length row.now)) }
{
    let mut copy = BitRow::new(alloc, row.len())?;
    copy.copy_from(row);
    copy.grow(alloc, len)?;
    Ok(copy)
}

/// Whether the place is one of the row's, and true.
pub fn is_there(row: &BitRow, place: u32) -> bool
    ensures { result ≡ is_in row.now place }
{
    place < row.len() && row.get(place)
}

/// The set of the chunks of a list that are among so many.
pub fn chunk_row(alloc: Global, list: &[ChunkNo], len: u32) -> Result<BitRow, NoMemory>
    ensures { IfOk result (λ row. row ≡ listed_row list.now len) }
{
    let mut row = BitRow::new(alloc, len)?;
    for chunk in list {
        set_within(&mut row, chunk.0);
    }
    Ok(row)
}

fn set_within(row: &mut BitRow, place: u32)
    ensures len { length row.new ≡ length row.old }
    ensures places { (i : ℕ) → i < length row.old → is_in row.new i ≡ (is_in row.old i || (place == i)) }
{
    if place < row.len() {
        row.set(place, true);
    }
}

pub fn same_chunks(list: &[ChunkNo], other: &[ChunkNo]) -> bool
    ensures { result ≡ same_chunks list.now other.now }
{
    list == other
}

pub fn same_modules(list: &[ModuleNo], other: &[ModuleNo]) -> bool
    ensures { result ≡ same_modules list.now other.now }
{
    list == other
}
