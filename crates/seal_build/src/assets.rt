//! The assets of all chunks.
ghost use Rattle.std.specs.Prelude.{◌≡◌, ◌<◌, ◌≤◌, length, map, OnOk, IfOk, IfErr};
ghost use Rattle.chunk_code.specs.Texts.{shown_id};
ghost use Rattle.chunk_graph.specs.Chunks.{chunk_at};
ghost use Rattle.module_code.specs.View.{IsSealing};
ghost use Rattle.seal_build.specs.Assets.{asset_bytes, chunk_assets, entry_asset, entry_chunks, entry_files, is_later, later_asset, later_chunks, later_files, named_assets};
ghost use Rattle.seal_build.specs.inner.Adding.{IsAdded, IsTooLarge, IsTooLong};

use crate::SealEnd;
use crate::naming::NamedAssets;
use chunk_code::{chunk_text, entry_text};
use chunk_graph::ChunkGraph;
use module_code::SealView;
use pack_util::{ChunkNo, GroupNo, Text};
use std::alloc::Global;

fn is_later(chunks: &ChunkGraph, c: ChunkNo) -> bool
    requires { c.0 < length chunks.now.chunks }
    ensures { result ≡ is_later (chunk_at chunks.now c.0) }
{
    !chunks.is_entry(c) && !chunks.is_gone(c)
}

fn add_later(
    made: &mut NamedAssets,
    alloc: Global,
    view: &SealView<'_>,
    c: ChunkNo,
) -> Result<(), SealEnd>
    requires sealing { IsSealing view.now }
    requires there { c.0 < length view.now.chunks.chunks }
    ensures added { OnOk result (IsAdded made.old made.new (shown_id view.now.chunks c.0) (later_asset view.now c.0)) }
    ensures err { IfErr result (IsTooLong made.old.bytes (later_asset view.now c.0)) }
{
    let text = chunk_text(alloc, view, c)?;
    made.add(alloc, view, &view.config.chunk_filename, c, text)
}

/// The assets of the chunks that are no entry's. The work ends where they have more bytes than the limit allows.
fn later_assets(alloc: Global, view: &SealView<'_>) -> Result<NamedAssets, SealEnd>
    requires { IsSealing view.now }
    ensures assets { IfOk result (λ made. made.assets.items ≡ map (later_asset view.now) (later_chunks view.now.chunks)) }
    ensures names { IfOk result (λ made. made.names.items ≡ later_files view.now) }
    ensures bytes { IfOk result (λ made. made.bytes ≡ asset_bytes (map (later_asset view.now) (later_chunks view.now.chunks))) }
    ensures err { IfErr result (IsTooLarge view.now) }
{
    let mut made = NamedAssets::new(alloc, 0);
    for place in 0..view.chunks.count() {
        let c = ChunkNo(place);
        if is_later(view.chunks, c) {
            add_later(&mut made, alloc, view, c)?;
        }
    }
    Ok(made)
}

fn add_entry(
    made: &mut NamedAssets,
    alloc: Global,
    view: &SealView<'_>,
    g: u32,
    files: &[(u32, Text)],
) -> Result<(), SealEnd>
    requires sealing { IsSealing view.now }
    requires group { g < length view.now.groups.infos }
    requires chunk { g < length view.now.chunks.chunks }
    requires files { files.now ≡ later_files view.now }
    ensures added { OnOk result (IsAdded made.old made.new (shown_id view.now.chunks g) (entry_asset view.now g)) }
    ensures err { IfErr result (IsTooLong made.old.bytes (entry_asset view.now g)) }
{
    let text = entry_text(alloc, view, GroupNo(g), files)?;
    made.add(alloc, view, &view.config.filename, ChunkNo(g), text)
}

/// The assets of the entries' chunks, which stand behind the others.
fn entry_assets(
    alloc: Global,
    view: &SealView<'_>,
    later: &NamedAssets,
) -> Result<NamedAssets, SealEnd>
    requires sealing { IsSealing view.now }
    requires groups { length view.now.config.entries ≤ length view.now.groups.infos }
    requires chunks { length view.now.config.entries ≤ length view.now.chunks.chunks }
    requires names { later.now.names.items ≡ later_files view.now }
    requires bytes { later.now.bytes ≡ asset_bytes (map (later_asset view.now) (later_chunks view.now.chunks)) }
    ensures assets { IfOk result (λ made. made.assets.items ≡ map (entry_asset view.now) (entry_chunks view.now)) }
    ensures names { IfOk result (λ made. made.names.items ≡ entry_files view.now) }
    ensures bytes { IfOk result (λ made. made.bytes ≡ asset_bytes (chunk_assets view.now)) }
    ensures err { IfErr result (IsTooLarge view.now) }
{
    let _few = view.chunks.count();
    let entries = view.config.entries.as_slice().len() as u32;
    let mut made = NamedAssets::new(alloc, later.bytes);
    for g in 0..entries {
        add_entry(&mut made, alloc, view, g, &later.names)?;
    }
    Ok(made)
}

/// All assets but the stats: those of entries' chunks are behind the others.
pub(crate) fn all_assets(alloc: Global, view: &SealView<'_>) -> Result<NamedAssets, SealEnd>
    requires sealing { IsSealing view.now }
    requires groups { length view.now.config.entries ≤ length view.now.groups.infos }
    requires chunks { length view.now.config.entries ≤ length view.now.chunks.chunks }
    ensures assets { IfOk result (λ made. made.assets.items ≡ chunk_assets view.now) }
    ensures names { IfOk result (λ made. made.names.items ≡ named_assets view.now) }
    ensures bytes { IfOk result (λ made. made.bytes ≡ asset_bytes (chunk_assets view.now)) }
    ensures err { IfErr result (IsTooLarge view.now) }
{
    let mut made = later_assets(alloc, view)?;
    let of_entries = entry_assets(alloc, view, &made)?;
    made.append(of_entries)?;
    Ok(made)
}
