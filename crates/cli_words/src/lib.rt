//! The words of a command: which command they name, and its options.
//!
//! [`read_words`] reads them. `specs/Words.antt` is the grammar: a row for each command, over the arguments and the options
//! that all commands share. What stays true: words are refused exactly where they are in no row, and they are in at most one.
#![tactic(auto)]

mod arguments;
mod job;
pub mod laws;
mod number;
mod reading;
mod words_end;

pub use job::Job;
pub use reading::read_words;
pub use words_end::WordsEnd;
