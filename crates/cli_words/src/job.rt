use pack_util::Text;

/// What a command asks for. Without a number of workers the caller chooses one.
#[derive(Drop)]
pub enum Job {
    /// A build by the configuration at this path, which is normal.
    Build { config: Text, workers: Option<u32> },
    /// A build of the sample tree of so many modules.
    Sample { n: u32, workers: Option<u32> },
}
