//! What the final chunks give.
ghost use Rattle.pack_util.specs.Answers.{Answers};
ghost use Rattle.seal_build.specs.Seal.{finished};
ghost use Rattle.seal_build.specs.inner.Ready.{IsReady};

use crate::assets::all_assets;
use crate::counting::count_there;
use crate::naming::{NamedAssets, add_bytes};
use crate::{SealEnd, Sealed};
use asset_names::clashes;
use chunk_graph::Split;
use fault_place::sort_faults;
use module_code::SealView;
use pack_util::{Bytes, Seq};
use stats_text::stats;
use std::alloc::Global;

/// The assets and the stats, where they are within the limit and have names of their own.
pub(crate) fn finish(
    alloc: Global,
    view: &SealView<'_>,
    config_path: &str,
    splits: &[Split],
) -> Result<Sealed, SealEnd>
    requires { IsReady view.now splits.now }
    ensures { Answers SealEnd.NoMemory (λ sealed. sealed) (finished config_path.now view.now splits.now) result }
{
    let SealView {
        graph,
        groups,
        chunks,
        config,
    } = view;
    let NamedAssets {
        assets,
        names,
        bytes,
    } = all_assets(alloc, view)?;
    let stats = stats(alloc, graph, groups, chunks, config, splits, &names)?;
    add_bytes(bytes, &stats)?;
    let mut faults = clashes(alloc, config_path, &names)?;
    if !faults.is_empty() {
        sort_faults(alloc, &mut faults)?;
        return Err(SealEnd::Faults(Seq::from_vec(faults)));
    }
    Ok(Sealed {
        assets: Seq::from_vec(assets),
        stats: Bytes::from_vec(stats),
        groups: groups.count(),
        chunks: count_there(chunks),
        splits: splits.len() as u32,
    })
}
