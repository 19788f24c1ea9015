//! JSON (RFC 8259) with the order of its keys, the offsets of its values and keys, and exact faults.
//!
//! [`read`] answers the one tree of a text, or the first fault: by the grammar of `specs/Grammar.antt` a text is JSON or
//! isn't, and by `specs/Answer.antt` a fault stands at the first byte with which the text begins no JSON text. The reader
//! takes each byte once and keeps the open brackets itself, so its stack doesn't grow with them. What stays true at each
//! byte: the rest of the text completes what was read to a JSON text exactly where the whole is one, and some rest does. The
//! members of an object are found by hashes that begin with a digest of the whole text. [`laws`] has what holds of the
//! definitions.
#![tactic(auto)]

mod fault;
mod frame;
pub mod laws;
mod members;
mod mode;
mod reader;
mod reading;
mod seed;
mod string;
mod tree;
mod word;

pub use fault::{JsonEnd, JsonFault, JsonKind};
pub use reading::read;
pub use tree::{JsonNode, JsonPair, JsonTree};
