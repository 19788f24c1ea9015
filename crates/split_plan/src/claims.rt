//! The candidate that a set of chunks makes, whether or not it is admissible.
ghost use Rattle.std.specs.Prelude.{◌≡◌, ℕ, ◌<◌, ◌^◌, ◌&&◌, [], true, false, length, map, slice_index_or, IfOk, MatchOption};
ghost use Rattle.std.specs.List.{list_any, range_with_len};
ghost use Rattle.chunk_graph.specs.Moves.{same_row};
ghost use Rattle.split_plan.specs.Candidates.{comes_from, modules_for, candidate_of};
ghost use Rattle.split_plan.specs.Plan.{rule_at};
ghost use Rattle.split_plan.specs.Shares.{meets};
ghost use Rattle.split_plan.specs.inner.Rows.{columns_of};
ghost use Rattle.split_plan.specs.inner.Search.{IsSearch, goes_with};

use crate::columns::{blank_rows, chunk_columns};
use crate::form::{Form, all_sharers, size_of};
use crate::named::named_rows;
use crate::unnamed::goes_with;
use crate::{Candidate, Rule, SplitPlan};
use bit_rows::BitRow;
use chunk_graph::ChunkGraph;
use pack_util::NoMemory;
use std::alloc::Global;

fn is_share_at(rule: &Rule, share: &BitRow, set: &BitRow, module: u32) -> bool
    requires { «module» < length rule.now.test }
    ensures { result ≡ (meets rule.now «module» && same_row share.now set.now) }
{
    rule.test.get(module) && share.same(set)
}

/// Whether exactly these chunks share some module that meets the test.
fn is_share(rule: &Rule, shares: &[BitRow], set: &BitRow) -> bool
    requires test { length rule.now.test ≡ length shares.now }
    requires few { length shares.now < 2 ^ 32 }
    ensures { result ≡ list_any (λ m. meets rule.now m && same_row (slice_index_or shares.now m []) set.now) (range_with_len 0 (length shares.now)) }
{
    for module in 0..shares.len() {
        if is_share_at(rule, &shares[module], set, module as u32) {
            return true;
        }
    }
    false
}

/// All modules that go with a set of chunks.
fn modules_with(
    alloc: Global,
    rule: &Rule,
    shares: &[BitRow],
    set: &BitRow,
) -> Result<BitRow, NoMemory>
    requires test { length rule.now.test ≡ length shares.now }
    requires few { length shares.now < 2 ^ 32 }
    ensures { IfOk result (λ row. row ≡ map (goes_with rule.now shares.now set.now) (range_with_len 0 (length shares.now))) }
{
    let mut row = BitRow::new(alloc, shares.len() as u32)?;
    for module in 0..shares.len() {
        let goes = goes_with(rule, &shares[module], set, module as u32);
        row.set(module as u32, goes);
    }
    Ok(row)
}

/// The modules that go with a set of chunks, where the set is one that the cache group may take modules from.
fn claimed_modules(
    alloc: Global,
    plan: &SplitPlan,
    state: &ChunkGraph,
    form: Form,
    rule: &Rule,
    shares: &[BitRow],
    set: &BitRow,
) -> Result<Option<BitRow>, NoMemory>
    requires { IsSearch plan.now state.now form.cache_group form.forced rule.now shares.now }
    ensures { IfOk result (λ modules. MatchOption modules
        (comes_from (rule_at plan.now form.cache_group) form.forced state.now (length plan.now.sizes) set.now ≡ false)
        (λ row. (comes_from (rule_at plan.now form.cache_group) form.forced state.now (length plan.now.sizes) set.now ≡ true)
        × (row ≡ modules_for (rule_at plan.now form.cache_group) form.forced state.now (length plan.now.sizes) set.now))) }
{
    if rule.name.is_some() {
        let rows = named_rows(alloc, state, rule, shares)?;
        if !rows.chunks.same(set) {
            return Ok(None);
        }
        return Ok(Some(rows.modules));
    }
    if !is_share(rule, shares, set) {
        return Ok(None);
    }
    Ok(Some(modules_with(alloc, rule, shares, set)?))
}

/// The candidate of the cache group in the form with these chunks, where candidates of it may have them. Whether there
/// are enough chunks, and whether the modules are large enough, isn't looked at.
pub fn claim(
    alloc: Global,
    plan: &SplitPlan,
    state: &ChunkGraph,
    cache_group: u32,
    forced: bool,
    chunks: BitRow,
) -> Result<Option<Candidate>, NoMemory>
    requires group { cache_group < length plan.now.rules }
    requires width { state.now.width ≡ length plan.now.sizes }
    ensures { IfOk result (λ found. MatchOption found
        (comes_from (rule_at plan.now cache_group) forced state.now (length plan.now.sizes) chunks ≡ false)
        (λ x. (comes_from (rule_at plan.now cache_group) forced state.now (length plan.now.sizes) chunks ≡ true)
        × (x ≡ candidate_of plan.now state.now cache_group forced chunks))) }
{
    let _count = state.count();
    let form = Form {
        cache_group,
        forced,
    };
    let rule = &plan.rules()[cache_group as usize];
    let columns = chunk_columns(alloc, state, plan.width())?;
    let mut shares = blank_rows(alloc, plan.width(), state.count())?;
    all_sharers(alloc, rule, forced, state, &columns, &mut shares)?;
    let Some(modules) = claimed_modules(alloc, plan, state, form, rule, &shares, &chunks)? else {
        return Ok(None);
    };
    let size = size_of(plan.sizes(), &modules);
    Ok(Some(Candidate {
        cache_group,
        forced,
        chunks,
        modules,
        size,
    }))
}
