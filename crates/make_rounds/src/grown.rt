use claim_board::Owners;
use graph_types::ModuleGraph;

/// What workers have grown.
#[derive(Drop)]
pub struct Grown {
    pub graph: ModuleGraph,
    /// The worker that built each module, by the number of its file.
    pub owners: Owners,
}
