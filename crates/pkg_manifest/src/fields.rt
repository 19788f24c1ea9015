ghost use Rattle.std.specs.Prelude.{◌≡◌, IfOk, find};
ghost use Rattle.pkg_manifest.specs.Manifest.{mains_of, is_exports, exports_of, manifest_of};

use json_order::{JsonNode, JsonPair, JsonTree};
use pack_util::{NoMemory, Seq, Text};
use std::alloc::Global;

/// The fields of a manifest.
#[derive(Drop)]
pub struct Manifest {
    /// The top members whose value is a string, with it.
    pub mains: Seq<(Text, Text)>,
    /// The value of the top member `exports`, unless it is null.
    pub exports: Option<JsonTree>,
}

/// The fields that the members of a manifest's object are.
pub(crate) fn fields_of(alloc: Global, members: Seq<JsonPair>) -> Result<Manifest, NoMemory>
    ensures { IfOk result (λ manifest. manifest ≡ manifest_of members) }
{
    Ok(Manifest {
        mains: mains_of(alloc, members.as_slice())?,
        exports: exports_of(members),
    })
}

fn mains_of(alloc: Global, members: &[JsonPair]) -> Result<Seq<(Text, Text)>, NoMemory>
    ensures { IfOk result (λ mains. mains ≡ mains_of members.now) }
{
    let mut mains = Seq::new(alloc);
    for member in members {
        if let JsonNode::Str(value) = &member.value.node {
            mains.push((member.key.clone()?, value.clone()?))?;
        }
    }
    Ok(mains)
}

fn exports_of(members: Seq<JsonPair>) -> Option<JsonTree>
    ensures { result ≡ exports_of members }
{
    let member = exports_member(members)?;
    match member.value.node {
        JsonNode::Null => None,
        _ => Some(member.value),
    }
}

fn exports_member(members: Seq<JsonPair>) -> Option<JsonPair>
    ensures { result ≡ find is_exports members }
{
    let mut members = members.into_vec().into_iter();
    members.find(|member| member.key.get() == "exports")
}
