use fault_place::Fault;
use graph_types::{Bind, Edit, Export, Item, Note, Star};
use pack_util::Seq;

/// What a module's text names, all by its places in the text. No item has a target yet.
#[derive(PartialEq, Eq, Drop)]
pub struct Scan {
    pub items: Seq<Item>,
    pub binds: Seq<Bind>,
    pub exports: Seq<Export>,
    pub stars: Seq<Star>,
    pub edits: Seq<Edit>,
    pub notes: Seq<Note>,
    pub faults: Seq<Fault>,
    /// Whether the text has an import or an export declaration.
    pub es: bool,
}
