//! Rows of truth values, and tables of rows of one length, held as bits in words of 64.
//!
//! A contract sees a [`BitRow`] as the list of its truth values, and each call gives what the plain
//! list operation gives, for every length. What stays true of a row: it has as few words as hold its
//! places, and the bits past its last place are zero. So the calls go by whole words, and only `get`
//! and `set` look at a single bit. Each row of a [`BitTable`] has the table's length.
//!
//! Only `new` and `grow` take memory.
#![tactic(auto)]

mod bits;
mod combining;
mod comparing;
mod counting;
mod lanes;
mod operations;
mod row;
mod table;

pub use row::BitRow;
pub use table::BitTable;

fn is_shared<T: Send + Sync>(_: &T) {}

// Rows and tables may be sent to other threads and shared with them.
fn are_shared(row: &BitRow, table: &BitTable) {
    is_shared(row);
    is_shared(table);
}
