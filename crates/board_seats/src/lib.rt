//! The seats of a board: what a token of an atomic table stands for.
//!
//! A board's rule speaks of its words, of its slots and of a book, which has an entry for each of the board's seats. A
//! token of the table (a `Seat` of `atomic_table`) stands for some seats, each by its number, and knows their entries.
//! Between any two steps each seat stands with one token at most, and that token knows the seat's entry as it stands in
//! the book. So whoever holds the token of one seat alone knows that seat's entry and is the only one to change it, and
//! whoever holds a token of all seats knows the book.
//!
//! A board says what a step of one seat does to the words, the slots and that seat's entry (`Moves`); that tokens are
//! split, joined and added is proved here once.
#![tactic(auto)]

mod tokens;

pub use tokens::{Blank, Seating, Tokens};
