//! The text of one module in the emitted chunk: a function that the runtime calls with the module's object.
//!
//! [`module_text`] writes it from the module's record: what it imports and exports, the loads of its imports, and its own
//! text with the edits that the record lists. What stays true: a call adds its part at the end of the text and changes
//! nothing before, and what no edit covers is written as it is.
#![tactic(auto)]

mod binds;
mod blocks;
mod body;
mod es;
mod exports;
mod id_table;
mod ids;
mod laws;
mod loads;
mod module;
mod numbers;
mod quoted;
mod view;

pub use ids::{add_ids, add_module_id, chunk_id, chunk_ids};
pub use laws::{blocks_are_found, declarations_are_counted, unedited_text_stays};
pub use module::{add_module, module_text};
pub use quoted::{add_comma, add_quoted};
pub use view::SealView;
