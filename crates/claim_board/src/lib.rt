//! A claim board: threads claim files and publish their records, each by one atomic step on the file's word.
//!
//! A file has one owner, the seat that claimed it first, and the owner publishes the file's record once. Each thread works
//! with a seat of its own, which knows what it claimed and published and what it was told of other seats. Closing the
//! board with all its seats gives each file's owner and record, and shows that no file was claimed twice and that what
//! each seat was told is so. [`laws`] says which steps are events of the core of the make phase: between any two steps
//! the words and the slots show one state of it.
//!
//! Nothing waits: there is no lock, and no call takes a handle.
#![tactic(auto)]

mod answers;
mod board;
mod close;
pub mod laws;
mod lists;
mod owners;
mod rule;
mod seat;
mod shared;
mod ticket;
mod words;

pub use answers::{Claim, Look};
pub use board::ClaimBoard;
pub use close::CloseEnd;
pub use owners::Owners;
pub use seat::ClaimSeat;
pub use ticket::Ticket;
