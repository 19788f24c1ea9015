//! What makes a state quiet, of the maps that it keeps.
ghost use Rattle.std.specs.Prelude.{◌≡◌, ◌↔◌, ℕ, true, IsTrue, IsSome, is_some};
ghost use Rattle.std.specs.List.{list_all};
ghost use Rattle.std.specs.Option.{option_map_or};
ghost use Rattle.make_core.specs.Core.{entries_of, names_owned, value_of};

use crate::CorePlan;
use crate::lookup::value_at;
use graph_types::ModRecord;

pub(crate) fn are_entries_owned(owners: &[Option<u32>], plan: &CorePlan) -> bool
    ensures { result ≡ list_all (λ entry. is_some (value_of owners.now entry)) (entries_of plan.now) }
{
    plan.entries
        .as_slice()
        .iter()
        .map(|entry| entry.0)
        .all(|entry| value_at(owners, entry as usize).is_some())
}

/// Whether each owned file is done.
pub(crate) fn are_finished(owners: &[Option<u32>], done: &[Option<ModRecord>]) -> bool
    ensures { IsTrue result
        ↔ ((file : ℕ) → IsSome (value_of owners.now file) → IsSome (value_of done.now file)) }
{
    for file in 0..owners.len() {
        if value_at(owners, file).is_some() && value_at(done, file).is_none() {
            return false;
        }
    }
    true
}

/// Whether each target of each done record is owned.
pub(crate) fn are_targets_owned(owners: &[Option<u32>], done: &[Option<ModRecord>]) -> bool
    ensures { result ≡ list_all (λ rec. option_map_or (names_owned owners.now) rec true) done.now }
{
    done.iter().all(|rec| match rec {
        Some(rec) => names_owned(owners, rec),
        None => true,
    })
}

fn names_owned(owners: &[Option<u32>], rec: &ModRecord) -> bool
    ensures { result ≡ names_owned owners.now rec.now }
{
    rec.items
        .as_slice()
        .iter()
        .filter_map(|item| item.target.map(|target| target.0))
        .all(|target| value_at(owners, target as usize).is_some())
}
