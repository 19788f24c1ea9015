use graph_types::ModRecord;
use pack_util::FileId;

/// What a worker does in one atomic step.
#[derive(PartialEq, Eq, Drop)]
pub enum Event {
    /// The worker becomes the file's owner.
    Claim {
        worker: u32,
        file: FileId,
    },
    /// The file's owner hands in its record.
    Publish {
        worker: u32,
        file: FileId,
        rec: ModRecord,
    },
}

/// The event isn't allowed in the state.
#[derive(Clone, Copy, PartialEq, Eq)]
pub struct NotAllowed;
