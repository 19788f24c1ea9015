//! Manifests may be sent to any thread and read by all at once.

use crate::Manifest;
use pack_util::is_shared;

fn are_shared(manifest: &Manifest) {
    is_shared(manifest);
}
