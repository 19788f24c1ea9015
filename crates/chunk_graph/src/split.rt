use pack_util::{ChunkNo, ModuleNo, Seq};

/// What one split did. Both lists are ascending.
#[derive(Clone, PartialEq, Eq, Drop)]
pub struct Split {
    pub cache_group: u32,
    /// Whether the split stands for its size alone, whatever the number of requests.
    pub forced: bool,
    /// The chunks that held the modules.
    pub chunks: Seq<ChunkNo>,
    pub modules: Seq<ModuleNo>,
    /// The chunk that has the modules.
    pub made: ChunkNo,
    /// Whether that chunk was there before.
    pub reused: bool,
}
