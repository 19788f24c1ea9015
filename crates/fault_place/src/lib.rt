//! Places in a text, faults and limits.
//!
//! What stays true: faults have one order and one spelling.
#![tactic(auto)]

mod fault;
mod limit;
mod order;
mod place;
mod places;
mod shared;

pub use fault::{Fault, FaultKind, fault_line};
pub use limit::Limit;
pub use order::sort_faults;
pub use pack_util::{
    Bytes, ChunkNo, FileId, GroupNo, MAX_TEXT, ModuleNo, NoMemory, Seq, Span, Text,
};
pub use place::{Place, Spot, place_at};
pub use places::Places;
