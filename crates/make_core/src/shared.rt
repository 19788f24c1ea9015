//! What threads share may be sent to any of them and read by all at once.

use crate::{CorePlan, CoreState, Event};
use pack_util::is_shared;

fn are_shared(plan: &CorePlan, event: &Event, state: &CoreState) {
    is_shared(plan);
    is_shared(event);
    is_shared(state);
}
