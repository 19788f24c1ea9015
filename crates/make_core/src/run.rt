ghost use Rattle.std.specs.Prelude.{◌≡◌, ◌<◌, ◌^◌, ◌⊎◌, ℕ, IfOk, IsErrAnd, MatchResult, vec_len};
ghost use Rattle.make_core.specs.Core.{AreAccepted, EndsWith, IsFirstRefused, IsSound, after_events, start};

use crate::{CorePlan, CoreState, Event, RunEnd};
use std::alloc::Global;

/// The state that the events leave, one after another from the start.
pub fn run_events(
    alloc: Global,
    plan: &CorePlan,
    files: u32,
    workers: u32,
    events: Vec<Event>,
) -> Result<CoreState, RunEnd>
    requires { vec_len events < 2 ^ 32 }
    ensures answer { MatchResult result
        (λ state. AreAccepted plan.now (start files workers) events.items
        × (state ≡ after_events (start files workers) events.items))
        (EndsWith plan.now (start files workers) events.items) }
    ensures refused { (index : ℕ)
        → IsFirstRefused plan.now (start files workers) events.items index
        → IsErrAnd result (λ end. (end ≡ RunEnd.NoMemory) ⊎ (end ≡ RunEnd.NotAllowed index)) }
    ensures sound { IfOk result (IsSound plan.now) }
{
    let mut state = CoreState::new(alloc, files, workers)?;
    for (index, event) in events.into_iter().enumerate() {
        if state.step(plan, event).is_err() {
            return Err(RunEnd::NotAllowed {
                index: index as u32,
            });
        }
    }
    Ok(state)
}
