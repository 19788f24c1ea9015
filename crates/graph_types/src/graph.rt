ghost use Rattle.std.specs.Prelude.{◌≡◌, ◌<◌, map, length, slice_index_or, filter_map, All, IfOk};
ghost use Rattle.graph_types.specs.Edges.{blocks_of, sync_targets_of, HasFewItems};
ghost use Rattle.graph_types.specs.Modules.{AreModules, AreNumbersOf, module_of};

use crate::edges::{all_blocks, all_sync_targets};
use crate::modules::{all_roots, module_of};
use crate::{Block, ModRecord};
use fault_place::Fault;
use pack_util::{FileId, ModuleNo, NoMemory, Seq};
use std::alloc::Global;
use std::marker::Model;

/// The module graph: a record for each reached file, the modules of each entry, and all faults of the make phase.
#[derive(Drop)]
pub struct ModuleGraph {
    records: Vec<ModRecord>,
    sync_targets: Vec<Seq<ModuleNo>>,
    blocks: Vec<Block>,
    roots: Vec<Seq<ModuleNo>>,
    faults: Vec<Fault>,
}

impl Model for ModuleGraph {
    ghost use Rattle.std.specs.Prelude.{◌≡◌, map};
    ghost use Rattle.graph_types.specs.Edges.{blocks_of, sync_targets_of};
    ghost use Rattle.std.specs.List.{AllByRecursion};
    ghost use Rattle.graph_types.specs.Modules.{AreModules, AreNumbersOf, Graph};

    ghost Value = { Graph };

    ghost view = { λ graph. record { records = graph.records.items; roots = graph.roots.items; faults = graph.faults.items } };

    ghost invariant = { λ graph. AreModules graph.records.items
        × (graph.sync_targets.items ≡ map (sync_targets_of graph.records.items) graph.records.items)
        × (graph.blocks.items ≡ blocks_of graph.records.items)
        × AllByRecursion (AreNumbersOf graph.records.items) graph.roots.items };
}

impl ModuleGraph {
    /// The graph of the records of the reached files, in the order of their files.
    pub fn from_records(
        alloc: Global,
        recs: Vec<ModRecord>,
        entries: &[Seq<FileId>],
        faults: Vec<Fault>,
    ) -> Result<ModuleGraph, NoMemory>
        requires modules { AreModules recs.items }
        requires few_items { All HasFewItems recs.items }
        ensures { IfOk result (λ graph. graph ≡ record {
          records = recs.items;
          roots = map (filter_map (module_of recs.items)) entries.now;
          faults = faults.items;
        }) }
    {
        let sync_targets = all_sync_targets(alloc, &recs)?;
        let blocks = all_blocks(alloc, &recs)?;
        let roots = all_roots(alloc, &recs, entries)?;
        Ok(ModuleGraph {
            records: recs,
            sync_targets,
            blocks,
            roots,
            faults,
        })
    }

    /// The number of modules.
    pub fn count(&self) -> u32
        ensures count { result ≡ length self.now.records }
        ensures modules { AreModules self.now.records }
    {
        self.records.len() as u32
    }

    pub fn rec(&self, m: ModuleNo) -> &ModRecord
        requires { m.0 < length self.now.records }
        ensures { result.now ≡ slice_index_or self.now.records m.0 result.now }
    {
        &self.records[m.0 as usize]
    }

    /// The module of a file that is reached. Takes no memory.
    pub fn module_of(&self, f: FileId) -> Option<ModuleNo>
        ensures { result ≡ module_of self.now.records f }
    {
        module_of(&self.records, f)
    }

    /// The modules that a module needs at once.
    pub fn sync_targets(&self, m: ModuleNo) -> &[ModuleNo]
        requires { m.0 < length self.now.records }
        ensures { result.now ≡ slice_index_or (map (sync_targets_of self.now.records) self.now.records) m.0 result.now }
    {
        self.sync_targets[m.0 as usize].as_slice()
    }

    pub fn blocks(&self) -> &[Block]
        ensures { result.now ≡ blocks_of self.now.records }
    {
        &self.blocks
    }

    /// The modules of an entry, in the order of the configuration.
    pub fn entry_roots(&self, e: u32) -> &[ModuleNo]
        requires { e < length self.now.roots }
        ensures are { result.now ≡ slice_index_or self.now.roots e result.now }
        ensures modules { AreNumbersOf self.now.records result.now }
    {
        self.roots[e as usize].as_slice()
    }

    pub fn faults(&self) -> &[Fault]
        ensures { result.now ≡ self.now.faults }
    {
        &self.faults
    }
}
