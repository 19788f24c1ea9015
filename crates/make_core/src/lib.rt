//! The core of the make phase as a pure machine: workers claim files and publish their records, one event at a time.
//!
//! A file has one owner at most, and one record at most, which is the plan's. Whatever events are accepted from the
//! start, each file with a record is owned and each owned file is reached from the entry files; once the state is
//! quiet, the files with a record are exactly the reached ones. `laws` says so of every list of events.
//!
//! The plan is given with each event and nothing that was read of it is kept, so each answer is about the plan given.
#![tactic(auto)]

mod event;
pub mod laws;
mod lookup;
mod plan;
mod quiet;
mod run;
mod run_end;
mod shared;
mod state;
mod targets;

pub use event::{Event, NotAllowed};
pub use plan::CorePlan;
pub use run::run_events;
pub use run_end::RunEnd;
pub use state::CoreState;
