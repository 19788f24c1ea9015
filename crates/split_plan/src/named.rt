//! The candidate of a cache group with a name, in one form: all modules that enough chunks share.
ghost use Rattle.std.specs.Prelude.{◌≡◌, ℕ, ◌<◌, ◌^◌, ◌&&◌, [], true, nat_le, length, slice_index_or, option_to_list, IfOk, is_some};
ghost use Rattle.chunk_graph.specs.Chunks.{count};
ghost use Rattle.split_plan.specs.Candidates.{Lists};
ghost use Rattle.split_plan.specs.Shares.{meets};
ghost use Rattle.split_plan.specs.inner.Search.{IsOfForm, IsSearch, AreNamedRows};

use crate::form::{Form, is_large, size_of};
use crate::{Candidate, Rule, SplitPlan};
use bit_rows::BitRow;
use chunk_graph::ChunkGraph;
use pack_util::NoMemory;
use std::alloc::Global;

/// The modules that enough chunks share, and the chunks that share one of them.
#[derive(Drop)]
pub struct NamedRows {
    pub modules: BitRow,
    pub chunks: BitRow,
}

/// Whether the module meets the test, and enough chunks share it.
fn is_shared(rule: &Rule, share: &BitRow, module: u32) -> bool
    requires { «module» < length rule.now.test }
    ensures { result ≡ (meets rule.now «module» && nat_le rule.now.min_chunks (count share.now)) }
{
    rule.test.get(module) && rule.min_chunks <= share.count()
}

pub fn named_rows(
    alloc: Global,
    state: &ChunkGraph,
    rule: &Rule,
    shares: &[BitRow],
) -> Result<NamedRows, NoMemory>
    requires test { length rule.now.test ≡ length shares.now }
    requires few { length shares.now < 2 ^ 32 }
    requires len { (m : ℕ) → m < length shares.now → length (slice_index_or shares.now m []) ≡ length state.now.chunks }
    ensures { IfOk result (λ rows. AreNamedRows state.now rule.now shares.now (length shares.now) rows.modules rows.chunks) }
{
    let mut modules = BitRow::new(alloc, shares.len() as u32)?;
    let mut chunks = BitRow::new(alloc, state.count())?;
    for module in 0..shares.len() {
        let share = &shares[module];
        if !is_shared(rule, share, module as u32) {
            continue;
        }
        modules.set(module as u32, true);
        chunks.union_with(share);
    }
    Ok(NamedRows { modules, chunks })
}

/// The candidate of the cache group in the form, where there is one.
pub fn named_candidate(
    alloc: Global,
    plan: &SplitPlan,
    state: &ChunkGraph,
    form: Form,
    rule: &Rule,
    shares: &[BitRow],
) -> Result<Option<Candidate>, NoMemory>
    requires search { IsSearch plan.now state.now form.cache_group form.forced rule.now shares.now }
    requires named { is_some rule.now.name ≡ true }
    ensures { IfOk result (λ found. Lists (IsOfForm plan.now state.now form.cache_group form.forced) (option_to_list found)) }
{
    if state.is_spent(form.cache_group) {
        return Ok(None);
    }
    let rows = named_rows(alloc, state, rule, shares)?;
    if rows.chunks.count() < rule.min_chunks {
        return Ok(None);
    }
    let size = size_of(plan.sizes(), &rows.modules);
    if !is_large(rule, form.forced, size) {
        return Ok(None);
    }
    Ok(Some(Candidate {
        cache_group: form.cache_group,
        forced: form.forced,
        chunks: rows.chunks,
        modules: rows.modules,
        size,
    }))
}
