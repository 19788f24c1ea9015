//! Templates of asset names, the names that they give, the hash in a name, and names that clash.
//!
//! A text has at most one template, and [`read_template`] answers it. What a template gives is its fixed text with each
//! mark replaced, so a name depends on nothing but the chunk's name and id and the asset's bytes.
#![tactic(auto)]

mod clash;
mod hash;
pub mod laws;
mod mark;
mod naming;
mod reading;
mod template_end;

pub use clash::clashes;
pub use hash::content_hash;
pub use naming::name_of;
pub use reading::read_template;
pub use template_end::TemplateEnd;
