use graph_types::Item;
use resolve_path::Resolution;

/// An item, and what its request names.
#[derive(Drop)]
pub struct Asked {
    pub item: Item,
    pub answer: Resolution,
}
