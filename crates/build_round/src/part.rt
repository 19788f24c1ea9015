use claim_board::ClaimSeat;
use draw_board::DrawSeat;
use outside::OutsideEnd;
use pack_util::FileId;
use resolve_path::ManifestCache;

/// What a worker builds with, and the files that it kept.
#[derive(Drop)]
pub(crate) struct Bench<R> {
    pub(crate) reader: R,
    pub(crate) seat: ClaimSeat,
    pub(crate) cache: ManifestCache,
    pub(crate) kept: Vec<FileId>,
}

/// A worker's part of a round, and how it ended.
#[derive(Drop)]
pub(crate) struct Part<R> {
    pub(crate) bench: Bench<R>,
    pub(crate) hand: DrawSeat,
    pub(crate) end: Result<(), OutsideEnd>,
}
