//! All splits.
ghost use Rattle.std.specs.Prelude.{◌≡◌, ◌≤◌, ◌^◌, ◌⊎◌, length, map, sum, IfOk, IfErr};
ghost use Rattle.split_plan.specs.Plan.{plan_of};
ghost use Rattle.split_plan.specs.Step.{AreSplits, NeedTooMany};
ghost use Rattle.split_chunks.specs.Accepted.{AreAccepted};
ghost use Rattle.split_chunks.specs.Loads.{KeepsLoads};
ghost use Rattle.split_chunks.specs.declared.split_end.SplitEnd.TheVariants.{Limit, NoMemory};

use crate::SplitEnd;
use crate::taking::take;
use chunk_graph::{ChunkGraph, Split};
use graph_types::{Config, ModuleGraph};
use split_plan::{SplitPlan, candidates_of, greatest_place};
use std::alloc::Global;

fn split_by(
    alloc: Global,
    graph: &ModuleGraph,
    config: &Config,
    plan: &SplitPlan,
    state: &mut ChunkGraph,
) -> Result<Vec<Split>, SplitEnd>
    requires plan { plan.now ≡ plan_of graph.now config.now }
    requires width { state.old.width ≡ length plan.now.sizes }
    ensures splits { IfOk result (λ v. AreSplits plan.now state.old v.items state.new) }
    ensures accepted { IfOk result (λ v. AreAccepted plan.now state.old v.items state.new) }
    ensures loads { IfOk result (λ v. KeepsLoads plan.now state.old v.items state.new) }
    ensures err { IfErr result (λ e. (e ≡ NoMemory) ⊎ ((e ≡ Limit) × NeedTooMany plan.now state.old state.new)) }
{
    let _width = plan.width();
    let mut splits = Vec::new(alloc);
    loop {
        let _sound = state.count();
        let found = candidates_of(alloc, plan, state)?;
        let place = match greatest_place(graph, config, &found) {
            Some(place) => place,
            None => return Ok(splits),
        };
        let made = match take(alloc, plan, state, &found[place]) {
            Ok(made) => made,
            Err(end) => return Err(end),
        };
        splits.push(made)?;
    }
}

/// Takes the best candidate until there is none; the check accepts these splits. After `Limit` the state is the one after a prefix of the splits; after
/// `NoMemory` it isn't used again.
pub fn split(
    alloc: Global,
    graph: &ModuleGraph,
    config: &Config,
    state: &mut ChunkGraph,
) -> Result<Vec<Split>, SplitEnd>
    requires small { sum (map (λ rec. rec.size) graph.now.records) ≤ 2 ^ 50 }
    requires width { state.old.width ≡ length graph.now.records }
    ensures splits { IfOk result (λ v. AreSplits (plan_of graph.now config.now) state.old v.items state.new) }
    ensures accepted { IfOk result (λ v. AreAccepted (plan_of graph.now config.now) state.old v.items state.new) }
    ensures loads { IfOk result (λ v. KeepsLoads (plan_of graph.now config.now) state.old v.items state.new) }
    ensures err { IfErr result (λ e. (e ≡ NoMemory) ⊎ ((e ≡ Limit) × NeedTooMany (plan_of graph.now config.now) state.old state.new)) }
{
    let plan = SplitPlan::new(alloc, graph, config)?;
    split_by(alloc, graph, config, &plan, state)
}
