//! What a file's text says as a module: its record before requests are resolved, so that no item has a target.
//!
//! The ending of a path says how the file's text is read. What stays true: the record is of the file and keeps its text,
//! and a text that isn't read as its path says has one fault and names nothing.
#![tactic(auto)]

mod bare;
mod ending;
mod script;

pub use bare::long_record;
pub use ending::parse;
