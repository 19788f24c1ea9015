use pack_util::Text;
use pkg_manifest::Manifest;

/// A manifest's path, and which manifest its file is, or that it is none.
#[derive(Drop)]
pub(crate) struct KeptManifest {
    pub(crate) path: Text,
    pub(crate) answer: Option<Manifest>,
}
