ghost use Rattle.std.specs.Prelude.{◌≡◌, ℕ, ◌<◌, ◌≤◌, [], true, cond, count_by, ◌==◌};
ghost use Rattle.board_seats.specs.Seats.{only};
ghost use Rattle.claim_board.specs.Lists.{is_in, is_seen, lists_in};

use crate::rule::View;
use atomic_table::Seat;
use graph_types::ModRecord;

/// A token of the board's table, which stands for some of its seats.
pub(crate) type Token = Seat<Option<ModRecord>, View>;

/// A seat of a claim board. Contracts see its number and four lists: the files that it claimed, those that it published
/// with their records, those with an owner that it was told, and those that it was told are published.
#[derive(Drop)]
pub struct ClaimSeat {
    pub(crate) token: Token,
    pub(crate) number: u32,
    ghost alone: { token.me ≡ (only number (lists_in token.me.0), []) },
    ghost idle: { (lists_in token.me.0).out ≡ [] },
    pub ghost once: { (file : ℕ) → count_by (λ pair. pair.0 == file) (lists_in token.me.0).published ≤ cond (is_in file (lists_in token.me.0).won) 1 0 },
    pub ghost inside: { ((file : ℕ) → is_in file (lists_in token.me.0).won ≡ true → file < token.table_id.slots) × ((file owner : ℕ) → is_seen file owner (lists_in token.me.0).seen ≡ true → file < token.table_id.slots) × ((file : ℕ) → is_in file (lists_in token.me.0).seen_published ≡ true → file < token.table_id.slots) },
}
