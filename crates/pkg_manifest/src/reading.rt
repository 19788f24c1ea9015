ghost use Rattle.std.specs.Prelude.{◌≡◌, List, ℕ, Option};
ghost use Rattle.pkg_manifest.specs.declared.fields.Manifest.{Manifest};
ghost use Rattle.pkg_manifest.specs.Manifest.{ManifestAnswersBy, IsManifestOf, manifest_in};

use crate::fields::fields_of;
use crate::{Manifest, ManifestEnd};
use json_order::laws::one_answer;
use json_order::{JsonEnd, JsonNode, JsonTree, read};
use std::alloc::Global;

/// How many bytes a manifest may have.
const SIZE_LIMIT: usize = 1_048_576;

/// The manifest that a text is.
pub fn manifest(alloc: Global, text: &[u8]) -> Result<Manifest, ManifestEnd>
    ensures found { ManifestAnswersBy (IsManifestOf text.now) result }
    // No other answer is right.
    ensures only { (answer : Option Manifest) → IsManifestOf text.now answer → ManifestAnswersBy (λ given. given ≡ answer) result }
{
    if text.len() > SIZE_LIMIT {
        return Err(ManifestEnd::BadManifest);
    }
    match read(alloc, text) {
        Ok(tree) => manifest_in(alloc, tree),
        Err(JsonEnd::Fault(_)) => Err(ManifestEnd::BadManifest),
        Err(JsonEnd::NoMemory) => Err(ManifestEnd::NoMemory),
    }
}

/// Each text is one manifest, or none.
pub fn one_manifest()
    ensures { (text : List ℕ) (one other : Option Manifest) → IsManifestOf text one → IsManifestOf text other → one ≡ other }
{
    one_answer();
}

fn manifest_in(alloc: Global, tree: JsonTree) -> Result<Manifest, ManifestEnd>
    ensures { ManifestAnswersBy (λ given. given ≡ manifest_in tree.node) result }
{
    match tree.node {
        JsonNode::Object(members) => Ok(fields_of(alloc, members)?),
        _ => Err(ManifestEnd::BadManifest),
    }
}
