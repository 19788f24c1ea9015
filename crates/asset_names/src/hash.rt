ghost use Rattle.std.specs.Prelude.{◌≡◌, ◌≤◌, IfOk, string_bytes};
ghost use Rattle.asset_names.specs.Hash.{hash_of, whole_hash_of};

use pack_util::{NoMemory, Text};
use sha2::{Digest, Sha256};
use std::alloc::Global;

/// The first digits of the hash of some bytes.
pub fn content_hash(alloc: Global, bytes: &[u8], digits: u32) -> Result<Text, NoMemory>
    requires at_least_one { 1 ≤ digits }
    requires at_most_all { digits ≤ 64 }
    ensures { IfOk result (λ text. text ≡ hash_of bytes.now digits) }
{
    let mut text = whole_hash(alloc, bytes)?;
    text.truncate(digits as usize);
    Ok(Text::from_string(text))
}

/// All digits of the hash of some bytes.
pub fn whole_hash(alloc: Global, bytes: &[u8]) -> Result<String, NoMemory>
    ensures { IfOk result (λ text. string_bytes text ≡ whole_hash_of bytes.now) }
{
    hex::encode(alloc, Sha256::digest(bytes))
}
