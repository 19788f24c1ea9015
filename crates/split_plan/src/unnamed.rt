//! The candidates of a cache group without a name, in one form. A set of chunks is found at the first module that has
//! it, and compared only with those of the earlier modules of its least chunk.
ghost use Rattle.std.specs.Prelude.{◌≡◌, ◌≢◌, ◌&&◌, ◌||◌, ℕ, ◌<◌, ◌≤◌, ◌^◌, [], true, None, Some, length, map, slice_index_or, sum, All, ◌++◌, option_to_list, OnOk, IfOk};
ghost use Rattle.std.specs.Bool.{MatchBool};
ghost use Rattle.std.specs.List.{range_with_len};
ghost use Rattle.chunk_graph.specs.Chunks.{State, is_in, count};
ghost use Rattle.split_plan.specs.Candidates.{Lists, lies_in};
ghost use Rattle.split_plan.specs.Plan.{IsPlan, rule_at};
ghost use Rattle.split_plan.specs.Shares.{sharers, meets};
ghost use Rattle.split_plan.specs.inner.Search.{IsEarlier, goes_with, IsOfForm, MatchFound, IsSearch};

use crate::form::{Form, copy_row, is_large, size_of};
use crate::{Candidate, Rule, SplitPlan};
use bit_rows::BitRow;
use chunk_graph::ChunkGraph;
use pack_util::{ChunkNo, NoMemory};
use std::alloc::Global;

/// Whether no earlier module of the row that meets the test has the same chunks.
fn is_first(rule: &Rule, shares: &[BitRow], mods: &BitRow, module: u32) -> bool
    requires test { length rule.now.test ≡ length shares.now }
    requires mods { length mods.now ≡ length shares.now }
    requires within { «module» < length shares.now }
    ensures { MatchBool result
        ((m : ℕ) → ¬ (IsEarlier rule.now shares.now mods.now «module» m))
        ((m : ℕ) × IsEarlier rule.now shares.now mods.now «module» m) }
{
    let mut at = 0;
    while let Some(other) = mods.next_from(at) {
        if other >= module {
            return true;
        }
        if rule.test.get(other) && shares[other as usize].same(&shares[module as usize]) {
            return false;
        }
        at = other + 1;
    }
    true
}

/// Whether the module meets the test, and its chunks hold the set.
pub fn goes_with(rule: &Rule, share: &BitRow, set: &BitRow, module: u32) -> bool
    requires { «module» < length rule.now.test }
    ensures { result ≡ (meets rule.now «module» && lies_in set.now share.now) }
{
    rule.test.get(module) && set.is_subset(share)
}

/// The modules of the row that go with a set of chunks.
fn modules_of(
    alloc: Global,
    rule: &Rule,
    shares: &[BitRow],
    mods: &BitRow,
    set: &BitRow,
) -> Result<BitRow, NoMemory>
    requires test { length rule.now.test ≡ length shares.now }
    requires mods { length mods.now ≡ length shares.now }
    ensures { IfOk result
        (λ row. row ≡ map (λ m. is_in mods.now m && goes_with rule.now shares.now set.now m) (range_with_len 0 (length shares.now))) }
{
    let mut row = BitRow::new(alloc, mods.len())?;
    let mut at = 0;
    while let Some(module) = mods.next_from(at) {
        row.set(
            module,
            goes_with(rule, &shares[module as usize], set, module),
        );
        at = module + 1;
    }
    Ok(row)
}

/// The candidate of the chunks that share a module, where it is admissible and no earlier module has the same chunks.
fn candidate_at(
    alloc: Global,
    plan: &SplitPlan,
    state: &ChunkGraph,
    form: Form,
    rule: &Rule,
    shares: &[BitRow],
    module: u32,
) -> Result<Option<Candidate>, NoMemory>
    requires search { IsSearch plan.now state.now form.cache_group form.forced rule.now shares.now }
    requires unnamed { rule.now.name ≡ None }
    requires within { «module» < length plan.now.sizes }
    ensures { IfOk result (MatchFound plan.now state.now form.cache_group form.forced «module») }
{
    let chunks = &shares[module as usize];
    let Some(first) = chunks.next_from(0) else {
        return Ok(None);
    };
    if !rule.test.get(module) {
        return Ok(None);
    }
    if chunks.count() < rule.min_chunks {
        return Ok(None);
    }
    let mods = state.mods(ChunkNo(first));
    if !is_first(rule, shares, mods, module) {
        return Ok(None);
    }
    let modules = modules_of(alloc, rule, shares, mods, chunks)?;
    let size = size_of(plan.sizes(), &modules);
    if !is_large(rule, form.forced, size) {
        return Ok(None);
    }
    Ok(Some(Candidate {
        cache_group: form.cache_group,
        forced: form.forced,
        chunks: copy_row(alloc, chunks)?,
        modules,
        size,
    }))
}

/// The candidates of the cache group in the form.
pub fn unnamed_candidates(
    alloc: Global,
    plan: &SplitPlan,
    state: &ChunkGraph,
    form: Form,
    rule: &Rule,
    shares: &[BitRow],
) -> Result<Vec<Candidate>, NoMemory>
    requires search { IsSearch plan.now state.now form.cache_group form.forced rule.now shares.now }
    requires unnamed { rule.now.name ≡ None }
    ensures { IfOk result (λ found. Lists (IsOfForm plan.now state.now form.cache_group form.forced) found.items) }
{
    let mut found = Vec::new(alloc);
    for module in 0..shares.len() as u32 {
        let candidate = candidate_at(alloc, plan, state, form, rule, shares, module)?;
        add_some(&mut found, candidate)?;
    }
    Ok(found)
}

/// Adds a candidate where there is one.
pub fn add_some(found: &mut Vec<Candidate>, candidate: Option<Candidate>) -> Result<(), NoMemory>
    ensures { OnOk result (found.new.items ≡ found.old.items ++ option_to_list candidate) }
{
    if let Some(candidate) = candidate {
        found.push(candidate)?;
    }
    Ok(())
}
