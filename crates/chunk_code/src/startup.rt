ghost use Rattle.std.specs.Prelude.{◌≡◌, ◌++◌, ◌==◌, ◌<◌, not, filter, flat_map, length, OnOk, IfOk};
ghost use Rattle.chunk_graph.specs.Chunks.{group_at};
ghost use Rattle.chunk_code.specs.Texts.{awaited, group_roots, start_text, startup_text_of};
ghost use Rattle.module_code.specs.View.{IsSealing};

use chunk_graph::ChunkGraph;
use module_code::{SealView, add_ids, add_module_id, chunk_ids};
use pack_util::{ChunkNo, GroupNo, ModuleNo, NoMemory, add};
use std::alloc::Global;

/// The chunks of an entry's group but the entry's own.
fn other_chunks(alloc: Global, chunks: &ChunkGraph, g: GroupNo) -> Result<Vec<ChunkNo>, NoMemory>
    requires { g.0 < length chunks.now.groups }
    ensures { IfOk result (λ others. others.items ≡ filter (λ chunk. not (chunk.0 == g.0)) (group_at chunks.now g.0)) }
{
    let mut others = Vec::from_slice(alloc, chunks.chunks(g))?;
    others.retain(|chunk| chunk.0 != g.0);
    Ok(others)
}

/// The ids of these chunks.
fn awaited(alloc: Global, view: &SealView<'_>, g: GroupNo) -> Result<Vec<u32>, NoMemory>
    requires { g.0 < length view.now.chunks.groups }
    ensures { IfOk result (λ ids. ids.items ≡ awaited view.now g.0) }
{
    let others = other_chunks(alloc, view.chunks, g)?;
    chunk_ids(alloc, view.chunks, &others)
}

/// The modules that a group starts with.
fn roots<'a>(view: &SealView<'a>, g: GroupNo) -> &'a [ModuleNo]
    requires { g.0 < length view.now.groups.infos }
    ensures { result.now ≡ group_roots view.now g.0 }
{
    view.groups.info(g).roots.as_slice()
}

fn add_start(text: &mut Vec<u8>, view: &SealView<'_>, root: ModuleNo) -> Result<(), NoMemory>
    ensures { OnOk result (text.new.items ≡ text.old.items ++ start_text view.now root) }
{
    add(text, b"self.__chunkpack(")?;
    add_module_id(text, view, root)?;
    add(text, b");\n")
}

fn add_starts(text: &mut Vec<u8>, view: &SealView<'_>, roots: &[ModuleNo]) -> Result<(), NoMemory>
    ensures { OnOk result (text.new.items ≡ text.old.items ++ flat_map (start_text view.now) roots.now) }
{
    for root in roots {
        add_start(text, view, *root)?;
    }
    Ok(())
}

/// Adds the calls that run an entry's modules.
pub fn add_startup(text: &mut Vec<u8>, view: &SealView<'_>, g: GroupNo) -> Result<(), NoMemory>
    requires sealing { IsSealing view.now }
    requires there { g.0 < length view.now.groups.infos }
    ensures { OnOk result (text.new.items ≡ text.old.items ++ startup_text_of view.now g.0) }
{
    let ids = awaited(*text.allocator(), view, g)?;
    add(text, b"self.__chunkpack.e([")?;
    add_ids(text, &ids)?;
    add(text, b"]).then(function(){\n")?;
    add_starts(text, view, roots(view, g))?;
    add(text, b"});\n")?;
    Ok(())
}

/// The calls that run an entry's modules in order, once the other chunks of its group are there.
pub fn startup_text(alloc: Global, view: &SealView<'_>, g: GroupNo) -> Result<Vec<u8>, NoMemory>
    requires sealing { IsSealing view.now }
    requires there { g.0 < length view.now.groups.infos }
    ensures { IfOk result (λ text. text.items ≡ startup_text_of view.now g.0) }
{
    let mut text = Vec::new(alloc);
    add_startup(&mut text, view, g)?;
    Ok(text)
}
