//! Chunk groups, the modules that each group reaches, and what it means that modules placed in groups serve.
//!
//! A block lies in exactly one group: that of its chunk name, or its own. The groups and the graph are a net of plain
//! functions over numbers. A load history is a list of groups, each an entry's or one that a block loads in a module which
//! an earlier group reaches. What stays true of `reach`: a module is marked once, and its targets are marked after it, so a
//! group's row is closed when nothing waits.
#![tactic(auto)]

mod filing;
mod grouping;
mod groups_end;
pub mod laws;
mod marking;
mod naming;
mod over;
mod reaching;
mod taken;

pub use grouping::groups;
pub use groups_end::GroupsEnd;
pub use over::are_over;
pub use reaching::reach;
