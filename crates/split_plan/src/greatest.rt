//! The greatest of the candidates.
ghost use Rattle.std.specs.Prelude.{◌≡◌, ◌<◌, ◌^◌, [], All, length, slice_index_or, MatchOption, if◌then◌else◌};
ghost use Rattle.std.specs.Ordering.{is_lt};
ghost use Rattle.split_plan.specs.declared.candidate.Candidate.{Candidate};
ghost use Rattle.split_plan.specs.Order.{order, IsGreatest};
ghost use Rattle.split_plan.specs.Plan.{plan_of};

use crate::Candidate;
use crate::compare::compare;
use graph_types::{CacheGroup, Config, ModuleGraph};
use std::cmp::Ordering;

fn is_less(config: &Config, graph: &ModuleGraph, x: &Candidate, y: &Candidate) -> bool
    requires x { x.now.cache_group < length config.now.cache_groups }
    requires y { y.now.cache_group < length config.now.cache_groups }
    ensures { result ≡ is_lt (order (plan_of graph.now config.now) x.now y.now) }
{
    let _modules = graph;
    let groups = config.cache_groups.as_slice();
    let group = &groups[x.cache_group as usize];
    let other = &groups[y.cache_group as usize];
    compare(group, other, x, y).is_lt()
}

/// That of the two places whose candidate is greater.
fn greater_of(
    graph: &ModuleGraph,
    config: &Config,
    list: &[Candidate],
    best: usize,
    place: usize,
) -> usize
    requires known { All (λ x. x.cache_group < length config.now.cache_groups) list.now }
    requires within { (best < length list.now) × (place < length list.now) }
    ensures { (d : Candidate) → result
        ≡ (if is_lt (order (plan_of graph.now config.now) (slice_index_or list.now best d) (slice_index_or list.now place d)) then place else best) }
{
    if is_less(config, graph, &list[best], &list[place]) {
        place
    } else {
        best
    }
}

/// The place of the greatest candidate. Takes no memory.
pub fn greatest_place(graph: &ModuleGraph, config: &Config, list: &[Candidate]) -> Option<usize>
    requires { All (λ x. x.cache_group < length config.now.cache_groups) list.now }
    ensures { MatchOption result (list.now ≡ []) (IsGreatest (plan_of graph.now config.now) list.now) }
{
    if list.is_empty() {
        return None;
    }
    let mut best = 0;
    for place in 1..list.len() {
        best = greater_of(graph, config, list, best, place);
    }
    Some(best)
}

/// The place of the greatest candidate. Takes no memory.
pub fn best(graph: &ModuleGraph, config: &Config, list: &[Candidate]) -> Option<u32>
    requires known { All (λ x. x.cache_group < length config.now.cache_groups) list.now }
    requires few { length list.now < 2 ^ 32 }
    ensures { MatchOption result (list.now ≡ []) (IsGreatest (plan_of graph.now config.now) list.now) }
{
    let place = greatest_place(graph, config, list)?;
    Some(place as u32)
}
