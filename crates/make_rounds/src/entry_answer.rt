use graph_types::EntryFile;
use resolve_path::Resolution;

/// A file that an entry names, and what its request names.
#[derive(Drop)]
pub(crate) struct EntryAnswer {
    pub(crate) file: EntryFile,
    pub(crate) answer: Resolution,
}
