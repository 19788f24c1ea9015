//! The sample tree: a project of any number of small modules, so that machines can be compared without files.
//!
//! [`sample_tree`] makes it. `specs/Sample.antt` is its text: each module's file and what it loads, and seven libraries.
//! Files are added in byte order of path, each behind those before it, so that none is moved.
#![tactic(auto)]

mod digits;
mod module;
mod sample;
mod sample_end;

pub use sample::sample_tree;
pub use sample_end::SampleEnd;
