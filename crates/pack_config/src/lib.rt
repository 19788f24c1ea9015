//! The configuration: its grammar, its defaults and its faults, each at its exact place.
//!
//! [`read_config`] reads a JSON text. `specs/Grammar.antt` and the files that it names say, key by key, which values are
//! allowed and what they mean, as the set of faults of a JSON value and as the configuration that it stands for. There is
//! a configuration exactly where that set is empty, and otherwise the answer is the fault at the least offset, whatever
//! the order in which the reader met them; [`laws`] says that a text has one answer. The reader visits each value once and keeps only the least fault so far.
#![tactic(auto)]

mod condition;
mod entry;
mod fault;
mod found;
mod group;
pub mod laws;
mod member;
mod number;
mod output;
mod place;
mod reading;
mod repeated;
mod resolve;
mod shared;
mod split;
mod template;
mod value;

pub use fault::{ConfigEnd, ConfigFault, ConfigKind};
pub use reading::read_config;
