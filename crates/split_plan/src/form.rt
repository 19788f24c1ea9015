//! The candidates of one cache group in one form: how they are made from a set of chunks.
ghost use Rattle.std.specs.Prelude.{◌≡◌, ℕ, ◌<◌, ◌≤◌, ◌^◌, false, length, map, slice_index, slice_index_or, sum, IfOk, MatchOption, OnOk};
ghost use Rattle.std.specs.List.{range_with_len};
ghost use Rattle.bit_rows.specs.Places.{meet};
ghost use Rattle.chunk_graph.specs.Chunks.{is_in, count};
ghost use Rattle.split_plan.specs.Candidates.{size_of, bound_of};
ghost use Rattle.split_plan.specs.Shares.{allowed_row, sharers, is_reached};
ghost use Rattle.split_plan.specs.inner.Rows.{columns_of, AreChunkRows};

use crate::Rule;
use crate::allowed::allowed_chunks;
use bit_rows::BitRow;
use chunk_graph::ChunkGraph;
use pack_util::NoMemory;
use std::alloc::Global;

/// A cache group, and whether its candidates stand for their size alone.
#[derive(Clone, Copy)]
pub struct Form {
    pub cache_group: u32,
    pub forced: bool,
}

/// The sizes of the modules of a row, added up.
pub fn size_of(sizes: &[u64], row: &BitRow) -> u64
    requires len { length row.now ≡ length sizes.now }
    requires small { sum sizes.now ≤ 2 ^ 50 }
    ensures { result ≡ size_of sizes.now row.now }
{
    let _len = row.len();
    let mut total = 0;
    let mut at = 0;
    while let Some(module) = row.next_from(at) {
        total += sizes[module as usize];
        at = module + 1;
    }
    total
}

/// Whether the size is at least the form's bound.
pub fn is_large(rule: &Rule, forced: bool, size: u64) -> bool
    ensures { result ≡ is_reached (bound_of rule.now forced) size }
{
    if !forced {
        return rule.min_size <= size;
    }
    match rule.threshold {
        Some(bound) => bound <= size,
        None => false,
    }
}

fn fill_share(row: &mut BitRow, allowed: &BitRow, column: &BitRow)
    requires row { length row.old ≡ length allowed.now }
    requires column { length column.now ≡ length allowed.now }
    ensures { row.new ≡ meet allowed.now column.now }
{
    row.copy_from(allowed);
    row.meet_with(column);
}

/// Makes the rows, one for each module, the chunks that share it in the form.
pub fn all_sharers(
    alloc: Global,
    rule: &Rule,
    forced: bool,
    state: &ChunkGraph,
    columns: &[BitRow],
    shares: &mut Vec<BitRow>,
) -> Result<(), NoMemory>
    requires columns { columns.now ≡ columns_of state.now (length columns.now) }
    requires rows { AreChunkRows state.now (length columns.now) shares.old.items }
    ensures { OnOk result (shares.new.items ≡ map (sharers rule.now forced state.now) (range_with_len 0 (length columns.now))) }
{
    let allowed = allowed_chunks(alloc, rule, forced, state)?;
    for module in 0..columns.len() {
        let row = &mut shares[module];
        fill_share(row, &allowed, &columns[module]);
    }
    Ok(())
}

pub fn copy_row(alloc: Global, row: &BitRow) -> Result<BitRow, NoMemory>
    ensures { IfOk result (λ copy. copy ≡ row.now) }
{
    let mut copy = BitRow::new(alloc, row.len())?;
    copy.copy_from(row);
    Ok(copy)
}
