//! What a record's items name.
ghost use Rattle.std.specs.Prelude.{◌≡◌, ◌==◌};
ghost use Rattle.std.specs.List.{list_any};
ghost use Rattle.graph_types.specs.Targets.{targets_of};

use graph_types::ModRecord;
use pack_util::FileId;

/// Whether an item of the record has the file as its target.
pub(crate) fn names(rec: &ModRecord, file: FileId) -> bool
    ensures { result ≡ list_any (λ target. file.0 == target) (targets_of rec.now) }
{
    rec.items
        .as_slice()
        .iter()
        .filter_map(|item| item.target.map(|target| target.0))
        .any(|target| file.0 == target)
}
