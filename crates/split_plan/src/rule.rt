ghost use Rattle.std.specs.Prelude.{◌≡◌, map, IfOk};
ghost use Rattle.graph_types.specs.Condition.{holds};
ghost use Rattle.split_plan.specs.Plan.{rule_of};

use bit_rows::BitRow;
use graph_types::{CacheGroup, Condition, ModuleGraph, Select};
use pack_util::{ModuleNo, NoMemory, Text};
use std::alloc::Global;

/// The settings of a cache group that splits depend on. Sizes are in bytes.
#[derive(Drop)]
pub struct Rule {
    /// The modules that meet the test.
    pub test: BitRow,
    pub name: Option<Text>,
    pub select: Select,
    pub min_size: u64,
    pub min_chunks: u32,
    pub max_async: Option<u32>,
    pub max_initial: Option<u32>,
    pub threshold: Option<u64>,
    pub priority: i32,
    pub reuse: bool,
}

fn tested(alloc: Global, graph: &ModuleGraph, test: &Condition) -> Result<BitRow, NoMemory>
    ensures { IfOk result (λ row. row ≡ map (λ rec. holds rec.path test.now) graph.now.records) }
{
    let mut row = BitRow::new(alloc, graph.count())?;
    for module in 0..graph.count() {
        row.set(module, test.holds(graph.rec(ModuleNo(module)).path.get()));
    }
    Ok(row)
}

/// A copy of a name, where there is one.
pub fn copy_name(name: &Option<Text>) -> Result<Option<Text>, NoMemory>
    ensures { IfOk result (λ copy. copy ≡ name.now) }
{
    match name {
        Some(text) => Ok(Some(text.clone()?)),
        None => Ok(None),
    }
}

pub fn rule_of(alloc: Global, graph: &ModuleGraph, group: &CacheGroup) -> Result<Rule, NoMemory>
    ensures { IfOk result (λ rule. rule ≡ rule_of graph.now.records group.now) }
{
    Ok(Rule {
        test: tested(alloc, graph, &group.test)?,
        name: copy_name(&group.name)?,
        select: group.select,
        min_size: group.min_size,
        min_chunks: group.min_chunks,
        max_async: group.max_async,
        max_initial: group.max_initial,
        threshold: group.threshold,
        priority: group.priority,
        reuse: group.reuse,
    })
}
