//! Which steps of a claim board are events of the core of the make phase: calls that do nothing and whose clauses are laws.
ghost use Rattle.std.specs.Prelude.{◌≡◌, ◌≢◌, ℕ, ◌+◌, ◌*◌, ◌<◌, List, [], ◌∷◌, Option, Some, None, slice_index};
ghost use Rattle.atomic_table.specs.Table.{keeps, takes, gives};
ghost use Rattle.graph_types.specs.declared.record.ModRecord.{ModRecord};
ghost use Rattle.make_core.specs.Core.{IsDone, IsOwned};
ghost use Rattle.make_core.specs.declared.event.Event.TheVariants.{Claim, Publish};
ghost use Rattle.claim_board.specs.declared.lists.Lists.{Lists};
ghost use Rattle.claim_board.specs.Shown.{BoardState, IsBoard, IsEvent, after_step, claim_word, shown};

/// A claim of a file that nobody owns is the core's claim by that seat, and a claim of any other leaves the state.
pub fn claim_is_an_event()
    ensures free { (files seats : ℕ) (state : BoardState) → IsBoard files seats state
        → (seat file token : ℕ) (view : List (ℕ × Lists ModRecord)) → seat < seats → file < files
        → slice_index state.words (file + 1) ≡ 0
        → IsEvent seats state (after_step state file (claim_word seat 0) token [] view keeps) (Claim seat (record { 0 = file })) }
    ensures owned { (files seats : ℕ) (state : BoardState) → IsBoard files seats state
        → (seat file token : ℕ) (view : List (ℕ × Lists ModRecord)) → file < files
        → slice_index state.words (file + 1) ≢ 0
        → shown seats (after_step state file (claim_word seat (slice_index state.words (file + 1))) token [] view keeps) ≡ shown seats state }
{}

/// Where a seat that claimed a file gives its slot back with the record, that is the core's publication.
pub fn publication_is_an_event()
    ensures { (files seats : ℕ) (state : BoardState) → IsBoard files seats state
        → (seat file token : ℕ) (rec : ModRecord) (view : List (ℕ × Lists ModRecord)) → file < files
        → slice_index state.words (file + 1) ≡ 2 * (seat + 1)
        → IsEvent seats state (after_step state file (2 * (seat + 1) + 1) token ((file, Some rec) ∷ []) view gives) (Publish seat (record { 0 = file }) rec) }
{}

/// Every other step leaves the state: a look, the slot of a file that isn't published going out, and what is done to
/// tokens alone.
pub fn other_steps_leave_the_state()
    ensures look { (files seats : ℕ) (state : BoardState) → IsBoard files seats state
        → (file token : ℕ) (view : List (ℕ × Lists ModRecord)) → file < files
        → shown seats (after_step state file (slice_index state.words (file + 1)) token [] view keeps) ≡ shown seats state }
    ensures take { (files seats : ℕ) (state : BoardState) → IsBoard files seats state
        → (seat file token : ℕ) (view : List (ℕ × Lists ModRecord)) → file < files
        → slice_index state.words (file + 1) ≡ 2 * (seat + 1)
        → shown seats (after_step state file (slice_index state.words (file + 1)) token [] view (takes file None)) ≡ shown seats state }
    ensures tokens { (seats : ℕ) (before after : BoardState) → after.words ≡ before.words → after.homes ≡ before.homes
        → shown seats after ≡ shown seats before }
{}

/// In the state shown, each file with a record has an owner.
pub fn each_published_file_is_owned()
    ensures { (files seats : ℕ) (state : BoardState) → IsBoard files seats state
        → (file : ℕ) → file < files → IsDone (shown seats state) file → IsOwned (shown seats state) file }
{}
