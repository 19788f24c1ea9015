use crate::rule::Steps;
use pack_util::FileId;
use std::snapshot::Snapshot;

/// A seat's right to publish the record of a file that it claimed. Contracts see its board, its seat and its file.
#[derive(Drop)]
pub struct Ticket {
    pub(crate) file: FileId,
    pub(crate) seat: u32,
    pub(crate) board: Snapshot<Steps>,
}
