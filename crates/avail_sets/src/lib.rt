//! Which modules are available whenever a group is loaded, along every load history, what therefore is placed in it, and
//! why a module is placed.
#![tactic(auto)]

mod availability;
mod falling;
mod layering;
mod opening;
mod placing;
mod reasons;
mod starting;

pub use availability::available;
pub use placing::place;
pub use reasons::why_placed;
