use pack_util::ModuleNo;

/// An item that loads its target on demand.
#[derive(Clone, Copy, PartialEq, Eq)]
pub struct Block {
    pub module: ModuleNo,
    /// The item's number in its module.
    pub item: u32,
    pub target: ModuleNo,
}
