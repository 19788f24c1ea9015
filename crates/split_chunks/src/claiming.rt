//! The candidate of which a split is, where the split keeps the rules of its chunks and modules.
ghost use Rattle.std.specs.Prelude.{◌≡◌, length, map, Some, IfOk, MatchResult};
ghost use Rattle.graph_types.specs.Modules.{module_no};
ghost use Rattle.chunk_graph.specs.Moves.{chunk_no};
ghost use Rattle.split_plan.specs.Order.{places};
ghost use Rattle.split_chunks.specs.Rules.{broken, claimed, same_chunks, same_modules};
ghost use Rattle.split_chunks.specs.inner.Kept.{KeepsFirst, KeepsClaim};

use crate::SplitRule;
use crate::lists::{chunk_numbers, chunk_row, module_numbers, same_chunks, same_modules};
use bit_rows::BitRow;
use chunk_graph::{ChunkGraph, Split};
use pack_util::{ChunkNo, ModuleNo, NoMemory};
use split_plan::{Candidate, SplitPlan, claim, is_large};
use std::alloc::Global;

fn lists_chunks(alloc: Global, row: &BitRow, list: &[ChunkNo]) -> Result<bool, NoMemory>
    ensures { IfOk result (λ same. same ≡ same_chunks (map chunk_no (places row.now)) list.now) }
{
    let numbers = chunk_numbers(alloc, row)?;
    Ok(same_chunks(numbers.as_slice(), list))
}

fn lists_modules(alloc: Global, row: &BitRow, list: &[ModuleNo]) -> Result<bool, NoMemory>
    ensures { IfOk result (λ same. same ≡ same_modules (map module_no (places row.now)) list.now) }
{
    let numbers = module_numbers(alloc, row)?;
    Ok(same_modules(numbers.as_slice(), list))
}

/// The candidate of which the split is, or the first of the rules of sharing, modules and size that the split breaks.
pub fn claimed(
    alloc: Global,
    plan: &SplitPlan,
    state: &ChunkGraph,
    split: &Split,
) -> Result<Result<Candidate, SplitRule>, NoMemory>
    requires width { state.now.width ≡ length plan.now.sizes }
    requires first { KeepsFirst plan.now state.now split.now }
    ensures { IfOk result (λ found. MatchResult found
        (λ x. (x ≡ claimed plan.now state.now split.now) × KeepsClaim plan.now state.now split.now)
        (λ rule. broken plan.now state.now split.now ≡ Some rule)) }
{
    let rule = &plan.rules()[split.cache_group as usize];
    let chunks = chunk_row(alloc, split.chunks.as_slice(), state.count())?;
    let is_listed = lists_chunks(alloc, &chunks, split.chunks.as_slice())?;
    let enough = rule.min_chunks <= chunks.count();
    let Some(x) = claim(alloc, plan, state, split.cache_group, split.forced, chunks)? else {
        return Ok(Err(SplitRule::Sharing));
    };
    if !is_listed || !enough {
        return Ok(Err(SplitRule::Sharing));
    }
    if !lists_modules(alloc, &x.modules, split.modules.as_slice())? {
        return Ok(Err(SplitRule::Modules));
    }
    if !is_large(rule, split.forced, x.size) {
        return Ok(Err(SplitRule::Size));
    }
    Ok(Ok(x))
}
