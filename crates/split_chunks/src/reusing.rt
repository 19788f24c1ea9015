//! The chunk that takes the modules of a split without being made.
ghost use Rattle.std.specs.Prelude.{◌≡◌, ◌<◌, ◌&&◌, not, length};
ghost use Rattle.chunk_graph.specs.Chunks.{chunk_at, is_in};
ghost use Rattle.split_plan.specs.Step.{is_reusable, reused_by};

use chunk_graph::ChunkGraph;
use pack_util::ChunkNo;
use split_plan::{Candidate, Rule};

fn is_reusable(state: &ChunkGraph, x: &Candidate, place: u32) -> bool
    requires within { place < length state.now.chunks }
    requires chunks { length x.now.chunks ≡ length state.now.chunks }
    ensures { result ≡ is_reusable state.now x.now.chunks x.now.modules place }
{
    if !x.chunks.get(place) {
        return false;
    }
    if state.is_entry(ChunkNo(place)) {
        return false;
    }
    state.mods(ChunkNo(place)).same(&x.modules)
}

/// The least such chunk, where the cache group may reuse one. Takes no memory.
pub fn reused_of(rule: &Rule, state: &ChunkGraph, x: &Candidate) -> Option<u32>
    requires { length x.now.chunks ≡ length state.now.chunks }
    ensures { result ≡ reused_by rule.now.name rule.now.reuse state.now x.now.chunks x.now.modules }
{
    if rule.name.is_some() {
        return None;
    }
    if !rule.reuse {
        return None;
    }
    for place in 0..state.count() {
        if is_reusable(state, x, place) {
            return Some(place);
        }
    }
    None
}
