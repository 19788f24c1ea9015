use fault_place::{Fault, Limit, Place};
use outside::Asset;
use pack_config::ConfigKind;
use pack_util::Seq;

/// What a build of a tree comes to, whoever reads the tree and however often a call fails.
#[derive(Drop)]
pub enum Verdict {
    /// The words are refused.
    Usage,
    /// The configuration's text has no meaning.
    Config { place: Place, kind: ConfigKind },
    /// The tree or the build exceeds a limit.
    Limit(Limit),
    /// The faults in their order; there is at least one.
    Faults(Seq<Fault>),
    Built(Build),
}

/// What a build makes.
#[derive(Drop)]
pub struct Build {
    pub modules: u32,
    pub groups: u32,
    pub chunks: u32,
    pub splits: u32,
    pub assets: Seq<Asset>,
}
