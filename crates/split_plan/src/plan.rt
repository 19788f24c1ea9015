ghost use Rattle.std.specs.Prelude.{◌≡◌, ◌≤◌, ◌<◌, ◌^◌, length, map, slice_index_or, sum, IfOk};
ghost use Rattle.graph_types.specs.Condition.{holds};
ghost use Rattle.split_plan.specs.Plan.{Plan, IsPlan, plan_of, rule_at, rule_of, no_rule};

use crate::rule::{Rule, rule_of};
use bit_rows::BitRow;
use graph_types::{CacheGroup, Config, ModuleGraph};
use pack_util::{ModuleNo, NoMemory};
use std::alloc::Global;
use std::marker::Model;

/// The size of each module, and the settings of each cache group with the modules that meet its test.
#[derive(Drop)]
pub struct SplitPlan {
    sizes: Vec<u64>,
    rules: Vec<Rule>,
}

impl Model for SplitPlan {
    ghost use Rattle.split_plan.specs.Plan.{Plan, IsPlan};

    ghost Value = { Plan };

    ghost view = { λ plan. record { sizes = plan.sizes.items; rules = plan.rules.items } };

    ghost invariant = { λ plan. IsPlan (record { sizes = plan.sizes.items; rules = plan.rules.items }) };
}

impl SplitPlan {
    /// The plan of a configuration for the modules of a graph.
    pub fn new(alloc: Global, graph: &ModuleGraph, config: &Config) -> Result<SplitPlan, NoMemory>
        requires small { sum (map (λ rec. rec.size) graph.now.records) ≤ 2 ^ 50 }
        ensures { IfOk result (λ plan. plan ≡ plan_of graph.now config.now) }
    {
        Ok(SplitPlan {
            sizes: sizes(alloc, graph)?,
            rules: rules(alloc, graph, config.cache_groups.as_slice())?,
        })
    }

    /// The number of modules.
    pub fn width(&self) -> usize
        ensures width { result ≡ length self.now.sizes }
        ensures plan { IsPlan self.now }
    {
        self.sizes.len()
    }

    pub fn sizes(&self) -> &[u64]
        ensures { result.now ≡ self.now.sizes }
    {
        &self.sizes
    }

    pub fn rules(&self) -> &[Rule]
        ensures { result.now ≡ self.now.rules }
    {
        &self.rules
    }
}

fn sizes(alloc: Global, graph: &ModuleGraph) -> Result<Vec<u64>, NoMemory>
    ensures { IfOk result (λ sizes. sizes.items ≡ map (λ rec. rec.size) graph.now.records) }
{
    let mut sizes = Vec::new(alloc);
    for module in 0..graph.count() {
        sizes.push(graph.rec(ModuleNo(module)).size)?;
    }
    Ok(sizes)
}

fn rules(alloc: Global, graph: &ModuleGraph, groups: &[CacheGroup]) -> Result<Vec<Rule>, NoMemory>
    ensures { IfOk result (λ rules. rules.items ≡ map (rule_of graph.now.records) groups.now) }
{
    let mut rules = Vec::new(alloc);
    for group in groups {
        rules.push(rule_of(alloc, graph, group)?)?;
    }
    Ok(rules)
}
