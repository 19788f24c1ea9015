//! What the phases of a build hand to each other: the record of each module, the module graph, and templates of names.
//!
//! A record is made once and never changed. The graph has a record for each reached file, in the order of the files'
//! numbers, which are those of their paths, so a module's number depends on no order of work. What leads from one module
//! to another, at once or on demand, is worked out when the graph is made, and the look-ups only read it. A file has a
//! module exactly where the graph has a record of it.
//!
//! [`laws`] says of the reached files that there is one list of them in order, and that they are those to which a walk
//! over targets leads from a first file.
#![tactic(auto)]

mod binding;
mod block;
mod cache_group;
mod condition;
mod config;
mod edges;
mod edit;
mod entry;
mod graph;
mod groups;
mod item;
pub mod laws;
mod modules;
mod note;
mod part;
mod record;
mod shared;
mod template;

pub use binding::{Bind, Export, ExportFrom, Star};
pub use block::Block;
pub use cache_group::{CacheGroup, Select};
pub use condition::Condition;
pub use config::Config;
pub use edit::{Edit, EditText};
pub use entry::{EntryFile, EntrySpec};
pub use graph::ModuleGraph;
pub use groups::{GroupInfo, Groups};
pub use item::{Item, ItemKind};
pub use note::{Note, NoteKind};
pub use part::Part;
pub use record::{ModKind, ModRecord};
pub use template::Template;
