//! One split: the modules of a candidate go to one chunk.
ghost use Rattle.std.specs.Prelude.{◌≡◌, ◌<◌, ◌≤◌, ◌⊎◌, false, None, length, IfOk, IfErr, OnOk};
ghost use Rattle.chunk_graph.specs.Chunks.{chunk_at};
ghost use Rattle.split_plan.specs.Candidates.{IsCandidate};
ghost use Rattle.split_plan.specs.Step.{made_of, reused_of, split_of, after_split, with_name_spent};
ghost use Rattle.split_chunks.specs.Ends.{before_taking, given};
ghost use Rattle.split_chunks.specs.declared.split_end.SplitEnd.TheVariants.{Limit, NoMemory};

use crate::SplitEnd;
use crate::joining::join_all;
use crate::lists::{chunk_numbers, grown, module_numbers};
use crate::reusing::reused_of;
use chunk_graph::{ChunkGraph, Split};
use pack_util::{ChunkNo, Text};
use split_plan::{Candidate, Rule, SplitPlan};
use std::alloc::{AllocError, Global};

fn copy_name(name: &Option<Text>) -> Result<Option<Text>, AllocError>
    ensures { IfOk result (λ copy. copy ≡ name.now) }
{
    match name {
        Some(text) => Ok(Some(text.clone()?)),
        None => Ok(None),
    }
}

/// The chunk that takes the modules: the one that is reused, or a new one.
fn taker(
    alloc: Global,
    rule: &Rule,
    state: &mut ChunkGraph,
    reused: Option<u32>,
) -> Result<ChunkNo, SplitEnd>
    ensures ok { IfOk result (λ c. (c ≡ made_of state.old reused) × (state.new ≡ before_taking rule.now.name state.old reused)) }
    ensures err { IfErr result (λ e. (e ≡ NoMemory)
        ⊎ ((e ≡ Limit) × (reused ≡ None) × (length state.old.chunks ≡ 8192) × (state.new ≡ state.old))) }
{
    if let Some(place) = reused {
        return Ok(ChunkNo(place));
    }
    let name = copy_name(&rule.name)?;
    match state.new_chunk(alloc, name) {
        Ok(chunk) => Ok(chunk),
        Err(end) => Err(SplitEnd::from(end)),
    }
}

fn spend_named(state: &mut ChunkGraph, rule: &Rule, cache_group: u32)
    requires { cache_group < 16 }
    ensures { state.new ≡ with_name_spent rule.now.name cache_group state.old }
{
    if rule.name.is_some() {
        state.spend(cache_group);
    }
}

/// The modules go to the chunk, which joins the groups of the chunks that lent them and is closed.
fn give(
    alloc: Global,
    rule: &Rule,
    state: &mut ChunkGraph,
    x: &Candidate,
    made: ChunkNo,
) -> Result<(), AllocError>
    requires group { x.now.cache_group < 16 }
    requires modules { length x.now.modules ≡ state.old.width }
    requires chunks { length x.now.chunks ≤ length state.old.chunks }
    requires within { made.0 < length state.old.chunks }
    requires there { (chunk_at state.old made.0).gone ≡ false }
    ensures { OnOk result (state.new ≡ given rule.now.name x.now.cache_group x.now.chunks x.now.modules made.0 state.old) }
{
    let from = grown(alloc, &x.chunks, state.count())?;
    state.move_modules(&x.modules, &from, made);
    join_all(state, &x.chunks, made)?;
    state.close_chunk(made);
    spend_named(state, rule, x.cache_group);
    Ok(())
}

/// Splits by the candidate.
pub fn take(
    alloc: Global,
    plan: &SplitPlan,
    state: &mut ChunkGraph,
    x: &Candidate,
) -> Result<Split, SplitEnd>
    requires width { state.old.width ≡ length plan.now.sizes }
    requires candidate { IsCandidate plan.now state.old x.now }
    ensures ok { IfOk result (λ y. (y ≡ split_of plan.now state.old x.now) × (state.new ≡ after_split plan.now state.old x.now)) }
    ensures err { IfErr result (λ e. (e ≡ NoMemory)
        ⊎ ((e ≡ Limit) × (reused_of plan.now state.old x.now ≡ None) × (length state.old.chunks ≡ 8192) × (state.new ≡ state.old))) }
{
    let _width = plan.width();
    let _count = state.count();
    let rule = &plan.rules()[x.cache_group as usize];
    let chunks = chunk_numbers(alloc, &x.chunks)?;
    let modules = module_numbers(alloc, &x.modules)?;
    let reused = reused_of(rule, state, x);
    let made = taker(alloc, rule, state, reused)?;
    give(alloc, rule, state, x, made)?;
    Ok(Split {
        cache_group: x.cache_group,
        forced: x.forced,
        chunks,
        modules,
        made,
        reused: reused.is_some(),
    })
}
