ghost use Rattle.std.specs.Prelude.{◌≡◌, ◌++◌, ◌∷◌, [], ℕ, List, OnOk, IfOk, map};
ghost use Rattle.es_scan.specs.Flaws.{repeat_of, repeats};
ghost use Rattle.es_scan.specs.Scan.{export_names, local_names};
ghost use Rattle.es_scan.specs.inner.Seen.{HasNames};

use crate::flaws::Flaw;
use fault_place::FaultKind;
use graph_types::{Bind, Export};
use pack_util::{NoMemory, Seq, Text};
use std::alloc::Global;
use std::collections::BTreeSet;

/// The names that a list of exports has.
pub(crate) fn export_names(alloc: Global, exports: &[Export]) -> Result<Vec<Text>, NoMemory>
    ensures { IfOk result (λ names. names.items ≡ export_names exports.now) }
{
    let mut names = Vec::new(alloc);
    for export in exports {
        names.push(export.name.clone()?)?;
    }
    Ok(names)
}

/// The local names that a list of binds has.
pub(crate) fn local_names(alloc: Global, binds: &[Bind]) -> Result<Vec<Text>, NoMemory>
    ensures { IfOk result (λ names. names.items ≡ local_names binds.now) }
{
    let mut names = Vec::new(alloc);
    for bind in binds {
        names.push(bind.local.clone()?)?;
    }
    Ok(names)
}

/// Tells of a name that was seen before, and keeps it otherwise.
fn see_name(
    offset: u32,
    seen: &mut BTreeSet<Text>,
    flaws: &mut Seq<Flaw>,
    name: &Text,
) -> Result<(), NoMemory>
    ensures flaws { (earlier : List (List ℕ)) → HasNames seen.old earlier
        → OnOk result (flaws.new ≡ flaws.old ++ repeat_of offset earlier name.now) }
    ensures seen { (earlier : List (List ℕ)) → HasNames seen.old earlier
        → OnOk result (HasNames seen.new (earlier ++ name.now ∷ [])) }
{
    let is_new = seen.insert(name.clone()?)?;
    if is_new {
        return Ok(());
    }
    flaws.push(Flaw {
        offset,
        kind: FaultKind::RepeatedName,
        detail: name.clone()?,
    })
}

/// Tells of each name that was seen before, and keeps the others.
pub(crate) fn see_names(
    offset: u32,
    seen: &mut BTreeSet<Text>,
    flaws: &mut Seq<Flaw>,
    names: &[Text],
) -> Result<(), NoMemory>
    ensures flaws { (earlier : List (List ℕ)) → HasNames seen.old earlier
        → OnOk result (flaws.new ≡ flaws.old ++ repeats offset earlier names.now) }
    ensures seen { (earlier : List (List ℕ)) → HasNames seen.old earlier
        → OnOk result (HasNames seen.new (earlier ++ names.now)) }
{
    for name in names {
        see_name(offset, seen, flaws, name)?;
    }
    Ok(())
}
