//! The files of a tree in byte order of path, with their lengths, and its folders, found by walking it.
//!
//! Whatever reader told them, a listing's paths are normal, each is there once and stands in one of its folders, and
//! they keep the limits on their number and length. `laws` has what follows for names and folders.
#![tactic(auto)]

mod kept;
pub mod laws;
mod list_end;
mod listed_file;
mod listing;
mod shared;
mod walk;

pub use list_end::ListEnd;
pub use listing::Listing;
pub use walk::list;
