use std::collections::LinkedList;

/// What is known of one seat: the positions that it drew, and whether it has drawn none. No value of it is made.
pub struct Hand {
    /// How many positions the board has.
    pub len: u32,
    pub drawn: LinkedList<u32>,
    pub is_done: bool,
}
