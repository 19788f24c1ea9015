use pack_util::Text;

/// What a command does, and by how many workers.
#[derive(Drop)]
pub(crate) enum Task {
    Build { config: Text, workers: u32 },
    Sample { n: u32, workers: u32 },
}
