ghost use Rattle.std.specs.Prelude.{◌≡◌, ◌++◌, IfOk, OnOk};
ghost use Rattle.asset_names.specs.Clashes.{clash_fault, clashes_of, first_clash, stats_clash};
ghost use Rattle.asset_names.specs.inner.Firsts.{first_id, IsKept};

use fault_place::{Fault, FaultKind, place_at};
use pack_util::{NoMemory, Text};
use std::alloc::Global;
use std::collections::HashMap;

/// The name under which the stats stand beside the assets.
const STATS: &str = "stats.json";

/// The clashes of names that assets have with those before them and with the stats: a member is a chunk's id with the
/// name of its asset.
pub fn clashes(
    alloc: Global,
    config_path: &str,
    named: &[(u32, Text)],
) -> Result<Vec<Fault>, NoMemory>
    ensures { IfOk result (λ faults. faults.items ≡ clashes_of config_path.now named.now) }
{
    let mut faults = Vec::new(alloc);
    let mut firsts = HashMap::new(alloc);
    for (id, name) in named {
        let first = first_or_put(&mut firsts, name.get(), *id)?;
        push_clashes(alloc, &mut faults, config_path, first, *id, name.get())?;
    }
    Ok(faults)
}

/// The chunk whose asset first had a name; a new name is put with its chunk.
fn first_or_put<'a>(
    firsts: &mut HashMap<&'a str, u32>,
    name: &'a str,
    id: u32,
) -> Result<Option<u32>, NoMemory>
    ensures first { IfOk result (λ first. first ≡ first_id firsts.old name.now) }
    ensures kept { OnOk result (IsKept firsts.old firsts.new name.now id) }
{
    let first = firsts.get(name).copied();
    if first.is_none() {
        firsts.insert(name, id)?;
    }
    Ok(first)
}

fn push_clashes(
    alloc: Global,
    faults: &mut Vec<Fault>,
    config_path: &str,
    first: Option<u32>,
    id: u32,
    name: &str,
) -> Result<(), NoMemory>
    ensures { OnOk result (faults.new.items ≡ faults.old.items
        ++ (first_clash config_path.now first id name.now ++ stats_clash config_path.now id name.now)) }
{
    if let Some(first) = first {
        faults.push(clash(alloc, config_path, first, Some(id), name)?)?;
    }
    if name == STATS {
        faults.push(clash(alloc, config_path, id, None, name)?)?;
    }
    Ok(())
}

fn clash(
    alloc: Global,
    config_path: &str,
    first: u32,
    other: Option<u32>,
    name: &str,
) -> Result<Fault, NoMemory>
    ensures { IfOk result (λ fault. fault ≡ clash_fault config_path.now first other name.now) }
{
    Ok(Fault {
        place: place_at(alloc, config_path, &[], 0)?,
        kind: FaultKind::AssetClash { first, other },
        detail: Text::new(alloc, name)?,
    })
}
