use bit_rows::BitRow;

/// Modules that chunks share under a cache group.
#[derive(Drop)]
pub struct Candidate {
    pub cache_group: u32,
    /// Whether it stands for its size alone, whatever the number of requests.
    pub forced: bool,
    pub chunks: BitRow,
    pub modules: BitRow,
    /// In bytes.
    pub size: u64,
}
