//! The text of a build's stats: one object of JSON, compact and with its keys in byte order, and the end of the line.
//!
//! What stays true is that each list of the object stands in the order of what it tells: modules, groups and chunks by
//! number, blocks and imports as in their module's text, notes by module, splits and assets as they were made.
#![tactic(auto)]

mod assets;
mod chunks;
mod groups;
mod ids;
mod loaded;
mod members;
mod modules;
mod names;
mod notes;
mod numbers;
mod splits;
mod text;

pub use text::stats;
