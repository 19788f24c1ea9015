//! What leads from one module to another.
ghost use Rattle.std.specs.Prelude.{◌≡◌, ◌+◌, ◌<◌, ◌^◌, ◌++◌, length, map, All, OnOk, IfOk};
ghost use Rattle.graph_types.specs.Edges.{is_lazy, sync_target, sync_targets_of, block_of, blocks_in, blocks_of, HasFewItems};
ghost use Rattle.graph_types.specs.Modules.{AreModules};

use crate::modules::module_of;
use crate::{Block, Item, ItemKind, ModRecord};
use pack_util::{ModuleNo, NoMemory, Seq, add_some};
use std::alloc::Global;

fn is_lazy(kind: ItemKind) -> bool
    ensures { result ≡ is_lazy kind }
{
    match kind {
        ItemKind::Lazy => true,
        ItemKind::Import | ItemKind::ExportFrom | ItemKind::Require | ItemKind::Eager => false,
    }
}

fn sync_target(records: &[ModRecord], item: &Item) -> Option<ModuleNo>
    requires modules { AreModules records.now }
    ensures { result ≡ sync_target records.now item.now }
{
    if is_lazy(item.kind) {
        return None;
    }
    module_of(records, item.target?)
}

fn sync_targets(
    alloc: Global,
    records: &[ModRecord],
    rec: &ModRecord,
) -> Result<Seq<ModuleNo>, NoMemory>
    requires modules { AreModules records.now }
    ensures { IfOk result (λ targets. targets ≡ sync_targets_of records.now rec.now) }
{
    let mut targets = Vec::new(alloc);
    for item in rec.items.as_slice() {
        add_some(&mut targets, sync_target(records, item))?;
    }
    Ok(Seq::from_vec(targets))
}

/// The modules that each module needs at once.
pub fn all_sync_targets(
    alloc: Global,
    records: &[ModRecord],
) -> Result<Vec<Seq<ModuleNo>>, NoMemory>
    requires modules { AreModules records.now }
    ensures { IfOk result (λ all. all.items ≡ map (sync_targets_of records.now) records.now) }
{
    let mut all = Vec::new(alloc);
    for record in records {
        all.push(sync_targets(alloc, records, record)?)?;
    }
    Ok(all)
}

fn block(records: &[ModRecord], module: u32, number: u32, item: &Item) -> Option<Block>
    requires modules { AreModules records.now }
    ensures { result ≡ block_of records.now «module» (number, item.now) }
{
    if !is_lazy(item.kind) {
        return None;
    }
    let target = module_of(records, item.target?)?;
    Some(Block {
        module: ModuleNo(module),
        item: number,
        target,
    })
}

fn add_blocks(
    blocks: &mut Vec<Block>,
    records: &[ModRecord],
    module: u32,
    rec: &ModRecord,
) -> Result<(), NoMemory>
    requires modules { AreModules records.now }
    requires few_items { HasFewItems rec.now }
    ensures { OnOk result (blocks.new.items ≡ blocks.old.items ++ blocks_in records.now («module», rec.now)) }
{
    for (number, item) in rec.items.as_slice().iter().enumerate() {
        add_some(blocks, block(records, module, number as u32, item))?;
    }
    Ok(())
}

/// All blocks, by module and item.
pub fn all_blocks(alloc: Global, records: &[ModRecord]) -> Result<Vec<Block>, NoMemory>
    requires modules { AreModules records.now }
    requires few_items { All HasFewItems records.now }
    ensures { IfOk result (λ blocks. blocks.items ≡ blocks_of records.now) }
{
    let mut blocks = Vec::new(alloc);
    for (module, record) in records.iter().enumerate() {
        add_blocks(&mut blocks, records, module as u32, record)?;
    }
    Ok(blocks)
}
