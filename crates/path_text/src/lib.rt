//! Normal paths: how a text becomes one, what one text names from a folder, a path's folder, and a folder's entry.
//!
//! A path that `normal` or `join` answers is normal, or the root `""`. `laws` has what holds of the definitions.
#![tactic(auto)]

pub mod laws;
mod path;
mod path_end;
mod segment;

pub use path::{is_normal, join, normal, parent};
pub use path_end::PathEnd;
pub use segment::{child, is_segment};
