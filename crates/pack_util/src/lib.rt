//! What every crate uses: texts, bytes and lists as values, numbers of things, out of memory as an error, text and lists
//! put together piece by piece, answers that a definition computes, and the bounds of what threads share.
//!
//! What stays true: contracts see a [`Text`] and a [`Bytes`] as the list of its bytes and a [`Seq`] as the list of its members, so a
//! struct of such fields is the record of what it holds; a call that adds puts its parts at the end and changes nothing
//! before.
#![tactic(auto)]

mod bytes;
mod list;
mod mark;
mod number;
mod pieces;
mod seq;
mod shared;
mod text;

pub use bytes::Bytes;
pub use list::add_some;
pub use mark::BYTE_ORDER_MARK;
pub use number::{ChunkNo, FileId, GroupNo, MAX_TEXT, ModuleNo, Span};
pub use pieces::{add, add_around, add_number};
pub use seq::Seq;
pub use shared::{is_sent, is_shared};
pub use text::Text;

/// The error of what fails for want of memory alone.
pub type NoMemory = std::alloc::AllocError;
