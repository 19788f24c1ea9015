use std::collections::LinkedList;

/// What is known of one seat: the files that it claimed, those that it published with their records, and what it was told
/// of others. No value of it is made.
pub struct Lists<T> {
    pub won: LinkedList<u32>,
    pub published: LinkedList<(u32, T)>,
    /// Files with an owner that the seat was told.
    pub seen: LinkedList<(u32, u32)>,
    /// Files that the seat was told are published.
    pub seen_published: LinkedList<u32>,
    /// The file whose slot is out with the seat, which is so inside of a publication alone.
    pub out: LinkedList<u32>,
}
