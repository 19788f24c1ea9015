//! What holds of the definitions: calls that do nothing and whose clauses are the laws.
ghost use Rattle.std.specs.Prelude.{◌≡◌, ◌<◌, List, length, None};
ghost use Rattle.chunk_graph.specs.declared.split.Split.{Split};
ghost use Rattle.chunk_graph.specs.Chunks.{State, has_module};
ghost use Rattle.chunk_groups.specs.Net.{Net};
ghost use Rattle.chunk_groups.specs.Serving.{Serves};
ghost use Rattle.split_plan.specs.declared.candidate.Candidate.{Candidate};
ghost use Rattle.split_plan.specs.Plan.{Plan, IsPlan};
ghost use Rattle.split_plan.specs.Step.{AreSplits, NeedTooMany};
ghost use Rattle.split_chunks.specs.Accepted.{IsSplitBy};
ghost use Rattle.split_chunks.specs.Loads.{KeepsLoads};
ghost use Rattle.split_chunks.specs.Rules.{broken};

use chunk_groups::laws::serves_with_more;

/// From one state there is one list of splits, and it leads to one state.
pub fn one_list_of_splits()
    ensures { (p : Plan) (s t u : State) (xs ys : List Split) → AreSplits p s xs t → AreSplits p s ys u → (xs ≡ ys) × (t ≡ u) }
{}

/// Where splits need one number of chunks too many, all splits together need more than there are.
pub fn limit_needs_more()
    ensures { (p : Plan) (s t u : State) (xs : List Split) → AreSplits p s xs t → NeedTooMany p s u → 8192 < length t.chunks }
{}

/// A split breaks no rule exactly where it is the split by an admissible candidate and has a number for its chunk.
pub fn rules_are_exact()
    ensures accepted { (p : Plan) (s : State) (y : Split) → broken p s y ≡ None → (x : Candidate) × IsSplitBy p s y x }
    ensures complete { (p : Plan) (s : State) (y : Split) (x : Candidate) → IsPlan p → IsSplitBy p s y x → broken p s y ≡ None }
{}

/// Where what groups load serves, it still serves after splits: along each load history no module is missing.
pub fn splits_keep_serving()
    ensures { (net : Net) (p : Plan) (s t : State) (splits : List Split) → KeepsLoads p s splits t
        → Serves net (has_module s) → Serves net (has_module t) }
{
    serves_with_more();
}
