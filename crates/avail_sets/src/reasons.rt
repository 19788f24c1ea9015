ghost use Rattle.std.specs.Prelude.{◌≡◌, ℕ, ◌-◌, ◌<◌, ◌∷◌, [], Bool, List, length, slice_index_or, IfOk, IsTrue, MatchOption};
ghost use Rattle.chunk_groups.specs.Grouped.{AreGroupsOver, IsReach, net_of};
ghost use Rattle.chunk_groups.specs.Net.{Net, Reaches};
ghost use Rattle.chunk_groups.specs.Rows.{bit_in};
ghost use Rattle.avail_sets.specs.inner.Falling.{AreOpened};
ghost use Rattle.avail_sets.specs.inner.Layers.{AreLayers, IsBest};
ghost use Rattle.avail_sets.specs.Reasons.{IsLeastReason, IsNotPlaced, group_numbers};

use crate::layering::{first_layers, lacking, search};
use crate::opening::all_opened;
use crate::starting::entries;
use bit_rows::{BitRow, BitTable};
use graph_types::{Groups, ModuleGraph};
use pack_util::{GroupNo, ModuleNo, NoMemory};
use std::alloc::Global;

/// From a group of the last layer to the first layer, by the least group of each that the one before may load.
fn read_forward(
    alloc: Global,
    opened: &BitTable,
    layers: &[BitRow],
    first: u32,
) -> Result<Vec<GroupNo>, NoMemory>
    requires some { 0 < length layers.now }
    requires in_range { first < length opened.now.rows }
    requires even { (length opened.now.rows ≡ opened.now.width)
        × ((i : ℕ) → i < length layers.now → length (slice_index_or layers.now i []) ≡ opened.now.width) }
    ensures { IfOk result (λ members. (net : Net) (g m : ℕ) (left : List Bool) → AreOpened net opened.now.rows
        → AreLayers net g m layers.now left → IsTrue (bit_in layers.now (length layers.now - 1) first)
        → (rest : List ℕ) × (group_numbers members.items ≡ first ∷ rest) × IsBest net g m first (length layers.now - 1) rest) }
{
    let mut members = Vec::new(alloc);
    members.push(GroupNo(first))?;
    let mut at = first;
    let mut below = layers.len() - 1;
    while below > 0 {
        below -= 1;
        // A group of a layer leads into the layer below, so there is one.
        let Some(next) = opened.row(at).first_common(&layers[below]) else {
            return Ok(members);
        };
        members.push(GroupNo(next))?;
        at = next;
    }
    Ok(members)
}

/// The shortest load history that ends with the group and in which no earlier group reaches the module, and of equally
/// short ones the least list. None where the module isn't placed in the group.
pub fn why_placed(
    alloc: Global,
    graph: &ModuleGraph,
    groups: &Groups,
    reach: &BitTable,
    g: GroupNo,
    m: ModuleNo,
) -> Result<Option<Vec<GroupNo>>, NoMemory>
    requires over { AreGroupsOver graph.now groups.now.infos }
    requires reach { IsReach graph.now groups.now.infos reach.now }
    requires in_range { (g.0 < length groups.now.infos) × (m.0 < length graph.now.records) }
    ensures { IfOk result (λ answer. MatchOption answer (IsNotPlaced (net_of graph.now groups.now.infos) g.0 m.0)
        (λ reason. IsLeastReason (net_of graph.now groups.now.infos) g.0 m.0 (group_numbers reason.items)
        × Reaches (net_of graph.now groups.now.infos) g.0 m.0)) }
{
    if !reach.row(g.0).get(m.0) {
        return Ok(None);
    }
    let opened = all_opened(alloc, graph, groups, reach)?;
    let entries = entries(alloc, groups)?;
    let mut left = lacking(alloc, reach, m.0)?;
    let mut layers = first_layers(alloc, groups.count(), g.0)?;
    let Some(first) = search(alloc, &opened, &entries, &mut left, &mut layers)? else {
        return Ok(None);
    };
    let reason = read_forward(alloc, &opened, &layers, first)?;
    Ok(Some(reason))
}
