use graph_types::ModRecord;
use pack_util::{FileId, Seq};

/// What is to be built: the entry files, and the record of every file, at the place of the file's number.
#[derive(PartialEq, Eq, Drop)]
pub struct CorePlan {
    pub entries: Seq<FileId>,
    pub recs: Seq<ModRecord>,
}

impl CorePlan {
    ghost use Rattle.std.specs.Prelude.{◌≡◌, ◌==◌, ◌↔◌, Some, IsTrue};
    ghost use Rattle.std.specs.List.{list_any};
    ghost use Rattle.make_core.specs.Core.{entries_of, planned_record};

    pub(crate) fn is_entry(&self, file: FileId) -> bool
        ensures { result ≡ list_any (λ entry. file.0 == entry) (entries_of self.now) }
    {
        self.entries
            .as_slice()
            .iter()
            .map(|entry| entry.0)
            .any(|entry| file.0 == entry)
    }

    /// Whether the record is the plan's of the file.
    pub(crate) fn has_record(&self, file: FileId, rec: &ModRecord) -> bool
        ensures { IsTrue result ↔ (planned_record self.now file.0 ≡ Some rec.now) }
    {
        match self.recs.as_slice().get(file.0 as usize) {
            Some(planned) => planned == rec,
            None => false,
        }
    }
}
