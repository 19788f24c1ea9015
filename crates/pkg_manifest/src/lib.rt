//! The fields of a package's manifest, its `package.json`, by which a request for the package finds a file.
//!
//! [`manifest`] reads a text of at most 1 MiB that is a JSON object: each top member whose value is a string, in the order
//! of their first keys, since any of them may be named as a main field, and `exports` as the tree that was read.
//! `specs/Manifest.antt` says which manifest a text is, and that a text is one manifest or is none.
#![tactic(auto)]

mod fields;
mod manifest_end;
mod reading;
mod shared;

pub use fields::Manifest;
pub use manifest_end::ManifestEnd;
pub use reading::{manifest, one_manifest};
