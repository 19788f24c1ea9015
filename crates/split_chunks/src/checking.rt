//! Lists of splits checked.
ghost use Rattle.std.specs.Prelude.{◌≡◌, ◌≤◌, ◌^◌, length, map, sum, None, Some, IfOk, OnOk, IfErr, MatchOption};
ghost use Rattle.split_plan.specs.Plan.{plan_of};
ghost use Rattle.split_chunks.specs.Accepted.{AreAccepted, IsRefused};
ghost use Rattle.split_chunks.specs.Loads.{KeepsLoads};
ghost use Rattle.split_chunks.specs.Rules.{broken, claimed};
ghost use Rattle.split_chunks.specs.inner.Kept.{KeepsFirst, after_test};

use crate::claiming::claimed;
use crate::rules::{keeps_group, keeps_made, keeps_requests, keeps_selection};
use crate::taking::take;
use crate::{CheckEnd, SplitBreak, SplitRule};
use chunk_graph::{ChunkGraph, Split};
use graph_types::{Config, ModuleGraph};
use pack_util::NoMemory;
use split_plan::SplitPlan;
use std::alloc::{AllocError, Global};

/// The first of the rules of the cache group and of the chunks alone that the split breaks.
fn first_broken(
    alloc: Global,
    plan: &SplitPlan,
    state: &ChunkGraph,
    split: &Split,
) -> Result<Option<SplitRule>, NoMemory>
    ensures { IfOk result (λ found. MatchOption found
        (KeepsFirst plan.now state.now split.now)
        (λ rule. broken plan.now state.now split.now ≡ Some rule)) }
{
    if !keeps_group(plan, state, split) {
        return Ok(Some(SplitRule::Group));
    }
    let rule = &plan.rules()[split.cache_group as usize];
    let chunks = split.chunks.as_slice();
    if !keeps_selection(alloc, rule, state, chunks)? {
        return Ok(Some(SplitRule::Selection));
    }
    if !keeps_requests(alloc, rule, split.forced, state, chunks)? {
        return Ok(Some(SplitRule::Requests));
    }
    Ok(None)
}

/// Splits as the split says, or gives the first rule that it breaks.
fn test_split(
    alloc: Global,
    plan: &SplitPlan,
    state: &mut ChunkGraph,
    split: &Split,
) -> Result<Option<SplitRule>, NoMemory>
    requires width { state.old.width ≡ length plan.now.sizes }
    ensures { IfOk result (λ found. (found ≡ broken plan.now state.old split.now) × (state.new ≡ after_test plan.now state.old split.now found)) }
{
    if let Some(rule) = first_broken(alloc, plan, state, split)? {
        return Ok(Some(rule));
    }
    let x = match claimed(alloc, plan, state, split)? {
        Ok(x) => x,
        Err(rule) => return Ok(Some(rule)),
    };
    let rule = &plan.rules()[split.cache_group as usize];
    if !keeps_made(rule, state, split, &x) {
        return Ok(Some(SplitRule::Made));
    }
    match take(alloc, plan, state, &x) {
        Ok(_) => Ok(None),
        Err(_) => Err(AllocError),
    }
}

fn check_by(
    alloc: Global,
    plan: &SplitPlan,
    state: &mut ChunkGraph,
    list: &[Split],
) -> Result<(), CheckEnd>
    requires width { state.old.width ≡ length plan.now.sizes }
    ensures ok { OnOk result (AreAccepted plan.now state.old list.now state.new) }
    ensures loads { OnOk result (KeepsLoads plan.now state.old list.now state.new) }
    ensures err { IfErr result (IsRefused plan.now state.old list.now state.new) }
{
    for place in 0..list.len() {
        let _sound = state.count();
        if let Some(rule) = test_split(alloc, plan, state, &list[place])? {
            let Ok(index) = u32::try_from(place) else {
                return Err(CheckEnd::NoMemory);
            };
            return Err(CheckEnd::Break(SplitBreak { index, rule }));
        }
    }
    Ok(())
}

/// Splits as the list says, as long as each split keeps all rules in the state before it. After `Break` the state is the
/// one after the splits before `index`; after `NoMemory` it isn't used again. A list whose split with a number that a
/// `u32` doesn't hold breaks a rule is taken as one that memory doesn't hold.
pub fn check_split(
    alloc: Global,
    graph: &ModuleGraph,
    config: &Config,
    state: &mut ChunkGraph,
    list: &[Split],
) -> Result<(), CheckEnd>
    requires small { sum (map (λ rec. rec.size) graph.now.records) ≤ 2 ^ 50 }
    requires width { state.old.width ≡ length graph.now.records }
    ensures ok { OnOk result (AreAccepted (plan_of graph.now config.now) state.old list.now state.new) }
    ensures loads { OnOk result (KeepsLoads (plan_of graph.now config.now) state.old list.now state.new) }
    ensures err { IfErr result (IsRefused (plan_of graph.now config.now) state.old list.now state.new) }
{
    let plan = SplitPlan::new(alloc, graph, config)?;
    check_by(alloc, &plan, state, list)
}
