ghost use Rattle.std.specs.Prelude.{◌≡◌, ◌<◌};
ghost use Rattle.claim_board.specs.Claims.{IsSeatOf, board_files};

use claim_board::{Claim, ClaimBoard, ClaimSeat, Look};
use graph_types::{ModKind, ModRecord};
use pack_util::{Bytes, FileId, Seq, Text};
use std::alloc::Global;
use std::test::*;

/// An empty module's record.
pub(crate) fn record(alloc: Global, file: u32) -> ModRecord
    ensures { result.file.0 ≡ file }
{
    ModRecord {
        file: FileId(file),
        path: Text::from_string(String::new(alloc)),
        size: 0,
        kind: ModKind::Plain,
        text: Bytes::from_vec(Vec::new(alloc)),
        items: Seq::new(alloc),
        binds: Seq::new(alloc),
        exports: Seq::new(alloc),
        stars: Seq::new(alloc),
        edits: Seq::new(alloc),
        notes: Seq::new(alloc),
        faults: Seq::new(alloc),
    }
}

/// How a seat sees the first file before another seat claims it, before that publishes its record, and after. None where the
/// claim is not the first.
fn looks(
    board: &ClaimBoard,
    alloc: Global,
    seat: &mut ClaimSeat,
    other: &mut ClaimSeat,
) -> Option<(Look, Look, Look)>
    requires seat { IsSeatOf board.now seat.old }
    requires other { IsSeatOf board.now other.old }
    requires file { 0 < board_files board.now }
{
    let file = FileId(0);
    let before = board.look(seat, file);
    let Claim::New(ticket) = board.claim(other, file) else {
        return None;
    };
    let claimed = board.look(seat, file);
    board.publish(other, ticket, record(alloc, 0));
    Some((before, claimed, board.look(seat, file)))
}

#[test]
fn a_seat_sees_what_another_does(rt: HostRuntime) -> Result<(), Fail> {
    let (board, mut dealt) = ClaimBoard::new(rt.alloc(), 1, 2)?;
    let (Some(mut second), Some(mut first)) = (dealt.pop(), dealt.pop()) else {
        return Err(Fail::from("not two seats"));
    };
    let looks = looks(&board, rt.alloc(), &mut first, &mut second);
    let want = (Look::Free, Look::Claimed(1), Look::Published(1));
    assert!(rt; looks == Some(want));
    Ok(())
}
