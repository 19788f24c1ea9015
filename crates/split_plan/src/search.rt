//! All candidates of a state.
ghost use Rattle.std.specs.Prelude.{◌≡◌, ◌<◌, ◌≤◌, ◌^◌, length, map, sum, IfOk, OnOk};
ghost use Rattle.graph_types.specs.Modules.{Graph};
ghost use Rattle.split_plan.specs.Candidates.{Lists, AreCandidates};
ghost use Rattle.split_plan.specs.Plan.{plan_of};
ghost use Rattle.split_plan.specs.inner.Rows.{columns_of, AreChunkRows};
ghost use Rattle.split_plan.specs.inner.Search.{IsOfForm};

use crate::columns::{blank_rows, chunk_columns};
use crate::form::{Form, all_sharers};
use crate::named::named_candidate;
use crate::unnamed::{add_some, unnamed_candidates};
use crate::{Candidate, SplitPlan};
use bit_rows::BitRow;
use chunk_graph::ChunkGraph;
use graph_types::{Config, ModuleGraph};
use pack_util::NoMemory;
use std::alloc::Global;

/// The candidates of one cache group in one form. The rows are written over.
fn form_candidates(
    alloc: Global,
    plan: &SplitPlan,
    state: &ChunkGraph,
    form: Form,
    columns: &[BitRow],
    shares: &mut Vec<BitRow>,
) -> Result<Vec<Candidate>, NoMemory>
    requires group { form.cache_group < length plan.now.rules }
    requires width { state.now.width ≡ length plan.now.sizes }
    requires columns { columns.now ≡ columns_of state.now (length plan.now.sizes) }
    requires rows { AreChunkRows state.now (length plan.now.sizes) shares.old.items }
    ensures found { IfOk result (λ found. Lists (IsOfForm plan.now state.now form.cache_group form.forced) found.items) }
    ensures rows { OnOk result (AreChunkRows state.now (length plan.now.sizes) shares.new.items) }
{
    let _width = plan.width();
    let _count = state.count();
    let rule = &plan.rules()[form.cache_group as usize];
    all_sharers(alloc, rule, form.forced, state, columns, shares)?;
    if rule.name.is_some() {
        let mut found = Vec::new(alloc);
        let candidate = named_candidate(alloc, plan, state, form, rule, shares)?;
        add_some(&mut found, candidate)?;
        return Ok(found);
    }
    unnamed_candidates(alloc, plan, state, form, rule, shares)
}

/// The candidates of a plan: exactly the admissible ones, each once.
pub fn candidates_of(
    alloc: Global,
    plan: &SplitPlan,
    state: &ChunkGraph,
) -> Result<Vec<Candidate>, NoMemory>
    requires { state.now.width ≡ length plan.now.sizes }
    ensures { IfOk result (λ found. AreCandidates plan.now state.now found.items) }
{
    let columns = chunk_columns(alloc, state, plan.width())?;
    let mut shares = blank_rows(alloc, plan.width(), state.count())?;
    let mut found = Vec::new(alloc);
    for cache_group in 0..plan.rules().len() as u32 {
        let limited = Form {
            cache_group,
            forced: false,
        };
        let mut more = form_candidates(alloc, plan, state, limited, &columns, &mut shares)?;
        found.append(&mut more)?;
        let forced = Form {
            cache_group,
            forced: true,
        };
        let mut more = form_candidates(alloc, plan, state, forced, &columns, &mut shares)?;
        found.append(&mut more)?;
    }
    Ok(found)
}

/// The candidates for a split: exactly the admissible ones, each once.
pub fn candidates(
    alloc: Global,
    graph: &ModuleGraph,
    config: &Config,
    state: &ChunkGraph,
) -> Result<Vec<Candidate>, NoMemory>
    requires small { sum (map (λ rec. rec.size) graph.now.records) ≤ 2 ^ 50 }
    requires width { state.now.width ≡ length graph.now.records }
    ensures { IfOk result (λ found. AreCandidates (plan_of graph.now config.now) state.now found.items) }
{
    let plan = SplitPlan::new(alloc, graph, config)?;
    candidates_of(alloc, &plan, state)
}
