//! The rules that need no search: those of the cache group, of the chunks alone, and of the chunk that is made.
ghost use Rattle.std.specs.Prelude.{◌≡◌, ◌<◌, ◌&&◌, ◌||◌, ◌==◌, not, true, length, nat_lt, IfOk, is_some};
ghost use Rattle.std.specs.List.{list_all};
ghost use Rattle.std.proofs.Math.Bool.{beq};
ghost use Rattle.chunk_graph.specs.Chunks.{chunk_at, is_in, is_open};
ghost use Rattle.split_plan.specs.Shares.{is_full, is_selected};
ghost use Rattle.split_plan.specs.Step.{made_of, reused_by};
ghost use Rattle.split_chunks.specs.Rules.{keeps_group};

use crate::lists::is_there;
use crate::reusing::reused_of;
use bit_rows::BitRow;
use chunk_graph::{ChunkGraph, MOST_CHUNKS, Split};
use pack_util::{ChunkNo, NoMemory};
use split_plan::{Candidate, Rule, SplitPlan, allowed_chunks};
use std::alloc::Global;

/// Whether the cache group is there, isn't spent, and has candidates of the form.
pub fn keeps_group(plan: &SplitPlan, state: &ChunkGraph, split: &Split) -> bool
    ensures { result ≡ keeps_group plan.now state.now split.now }
{
    let _few = plan.width();
    let rules = plan.rules();
    if split.cache_group as usize >= rules.len() {
        return false;
    }
    let rule = &rules[split.cache_group as usize];
    if rule.name.is_some() && state.is_spent(split.cache_group) {
        return false;
    }
    !split.forced || rule.threshold.is_some()
}

fn are_in(row: &BitRow, list: &[ChunkNo]) -> bool
    ensures { result ≡ list_all (λ c. is_in row.now c.0) list.now }
{
    list.iter().all(|chunk| is_there(row, chunk.0))
}

/// Whether there is a chunk, and every chunk is open and selected.
pub fn keeps_selection(
    alloc: Global,
    rule: &Rule,
    state: &ChunkGraph,
    chunks: &[ChunkNo],
) -> Result<bool, NoMemory>
    ensures { IfOk result (λ keeps. keeps
        ≡ (nat_lt 0 (length chunks.now) && list_all (λ c. is_open (chunk_at state.now c.0) && is_selected rule.now.select state.now c.0) chunks.now)) }
{
    if chunks.is_empty() {
        return Ok(false);
    }
    let allowed = allowed_chunks(alloc, rule, true, state)?;
    Ok(are_in(&allowed, chunks))
}

/// Whether no chunk is full, of chunks that are open and selected.
pub fn keeps_requests(
    alloc: Global,
    rule: &Rule,
    forced: bool,
    state: &ChunkGraph,
    chunks: &[ChunkNo],
) -> Result<bool, NoMemory>
    requires { list_all (λ c. is_open (chunk_at state.now c.0) && is_selected rule.now.select state.now c.0) chunks.now ≡ true }
    ensures { IfOk result (λ keeps. keeps ≡ (forced || list_all (λ c. not (is_full rule.now state.now c.0)) chunks.now)) }
{
    if forced {
        return Ok(true);
    }
    let allowed = allowed_chunks(alloc, rule, false, state)?;
    Ok(are_in(&allowed, chunks))
}

/// Whether the chunk is the one that takes the modules, and has a number where it has to be made.
pub fn keeps_made(rule: &Rule, state: &ChunkGraph, split: &Split, x: &Candidate) -> bool
    requires { length x.now.chunks ≡ length state.now.chunks }
    ensures { result ≡ (((made_of state.now (reused_by rule.now.name rule.now.reuse state.now x.now.chunks x.now.modules)).0 == split.now.made.0)
        && (beq (is_some (reused_by rule.now.name rule.now.reuse state.now x.now.chunks x.now.modules)) split.now.reused
        && (is_some (reused_by rule.now.name rule.now.reuse state.now x.now.chunks x.now.modules) || nat_lt (length state.now.chunks) 8192))) }
{
    match reused_of(rule, state, x) {
        Some(place) => place == split.made.0 && split.reused,
        None => state.count() == split.made.0 && !split.reused && state.count() < MOST_CHUNKS,
    }
}
