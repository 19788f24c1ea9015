//! What holds of every list of events: calls that do nothing and whose clauses are the laws.
ghost use Rattle.std.specs.Prelude.{◌≡◌, ◌≤◌, ◌↔◌, ℕ, List, count_by};
ghost use Rattle.graph_types.specs.Reached.{IsReached};
ghost use Rattle.make_core.specs.Core.{AreAccepted, Core, HasExactly, IsDone, IsFirstRefused, IsQuiet, IsReachable, IsSound, after_events, claims, entries_of, publishes, start, planned_targets};
ghost use Rattle.make_core.specs.declared.event.Event.{Event};
ghost use Rattle.make_core.specs.declared.plan.CorePlan.{CorePlan};

/// Whatever events are accepted from the start, the state that they leave is sound.
pub fn every_run_is_sound()
    ensures { (plan : CorePlan) (files workers : ℕ) (events : List Event)
        → AreAccepted plan (start files workers) events
        → IsSound plan (after_events (start files workers) events) }
{}

/// In a quiet sound state the done records are exactly the plan's records of the reached files.
pub fn quiet_is_whole()
    ensures { (plan : CorePlan) (state : Core) (members : List ℕ)
        → IsSound plan state → IsQuiet plan state
        → IsReached (planned_targets plan) (entries_of plan) members → HasExactly plan state members }
{}

/// In a quiet sound state the done files are exactly those that are reached.
pub fn quiet_is_reached()
    ensures { (plan : CorePlan) (state : Core) → IsSound plan state → IsQuiet plan state
        → (file : ℕ) → IsDone state file ↔ IsReachable plan file }
{}

/// No file is claimed twice.
pub fn claimed_once()
    ensures { (plan : CorePlan) (files workers : ℕ) (events : List Event)
        → AreAccepted plan (start files workers) events
        → (file : ℕ) → count_by (claims file) events ≤ 1 }
{}

/// No file is published twice.
pub fn published_once()
    ensures { (plan : CorePlan) (files workers : ℕ) (events : List Event)
        → AreAccepted plan (start files workers) events
        → (file : ℕ) → count_by (publishes file) events ≤ 1 }
{}

/// No event of an accepted list is the first that isn't allowed, and no two events of a list are.
pub fn one_end()
    ensures accepted { (plan : CorePlan) (state : Core) (events : List Event) (index : ℕ)
        → AreAccepted plan state events → IsFirstRefused plan state events index → ⊥ }
    ensures first { (plan : CorePlan) (state : Core) (events : List Event) (one other : ℕ)
        → IsFirstRefused plan state events one → IsFirstRefused plan state events other
        → one ≡ other }
{}
