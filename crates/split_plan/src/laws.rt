//! What holds of the definitions: calls that do nothing and whose clauses are the laws.
ghost use Rattle.std.specs.Prelude.{◌≡◌, ℕ, ◌<◌, None, length, true};
ghost use Rattle.std.specs.Cmp.{IsTotalOrder};
ghost use Rattle.std.specs.declared.cmp.Ordering.TheVariants.{Equal};
ghost use Rattle.chunk_graph.specs.Chunks.{State, IsShaped, has_module};
ghost use Rattle.split_plan.specs.declared.candidate.Candidate.{Candidate};
ghost use Rattle.split_plan.specs.Candidates.{IsCandidate};
ghost use Rattle.split_plan.specs.Order.{order};
ghost use Rattle.split_plan.specs.Plan.{Plan, IsPlan, rule_at};
ghost use Rattle.split_plan.specs.Step.{after_split, pairs};

/// Candidates have a total order, whatever the plan.
pub fn order_is_total()
    ensures { (p : Plan) → IsTotalOrder (order p) }
{}

/// Two different candidates of one state are never equal in the order, so the greatest one is one.
pub fn no_ties()
    ensures { (p : Plan) (s : State) (x y : Candidate) → IsCandidate p s x → IsCandidate p s y → order p x y ≡ Equal → x ≡ y }
{}

/// A candidate is told by its cache group, its form and its chunks.
pub fn told_by_chunks()
    ensures { (p : Plan) (s : State) (x y : Candidate) → IsCandidate p s x → IsCandidate p s y
        → x.cache_group ≡ y.cache_group → x.forced ≡ y.forced → x.chunks ≡ y.chunks → x ≡ y }
{}

/// What a group loads never shrinks by a split.
pub fn no_module_is_lost()
    ensures { (p : Plan) (s : State) (x : Candidate) (g m : ℕ) → IsShaped s → s.width ≡ length p.sizes → IsCandidate p s x
        → has_module s g m ≡ true → has_module (after_split p s x) g m ≡ true }
{}

/// By a split without a name no group gains a module either.
pub fn no_module_is_gained()
    ensures { (p : Plan) (s : State) (x : Candidate) (g m : ℕ) → IsShaped s → s.width ≡ length p.sizes → IsCandidate p s x
        → (rule_at p x.cache_group).name ≡ None → has_module (after_split p s x) g m ≡ true → has_module s g m ≡ true }
{}

/// Each split lowers the number of pairs of a module and an open chunk that holds it, so a list of splits ends.
pub fn pairs_fall()
    ensures { (p : Plan) (s : State) (x : Candidate) → IsPlan p → IsShaped s → s.width ≡ length p.sizes → IsCandidate p s x
        → pairs (after_split p s x) < pairs s }
{}
