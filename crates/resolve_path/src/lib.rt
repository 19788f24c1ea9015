//! Which file of a tree a request names: relative paths, aliases, packages with their main fields and `exports`.
//!
//! [`resolve`] answers what `resolution_of` of `specs/Resolution.antt` says of the tree and the configuration: the first
//! file of an ordered list of paths, else the list's verdict. The code asks the listing as it goes and reads a manifest
//! only where one is needed. What stays true: the manifests that a [`ManifestCache`] keeps are those of the tree, whatever
//! was answered.
#![tactic(auto)]

mod alias;
mod as_file;
mod as_folder;
mod cache;
mod fetch;
mod kept;
pub mod laws;
mod package;
mod path;
mod request;
mod request_kind;
mod resolution;
mod search;
mod shared;
mod target;
mod upward;

pub use cache::ManifestCache;
pub use request_kind::RequestKind;
pub use resolution::Resolution;
pub use search::resolve;
