ghost use Rattle.std.specs.Prelude.{◌≡◌, IfOk, string_bytes};
ghost use Rattle.std.specs.List.{list_any};
ghost use Rattle.path_text.specs.Path.{is_slash};
ghost use Rattle.path_text.specs.Child.{child_of, is_segment};

use crate::path::is_normal;
use std::alloc::{AllocError, Global};

/// Whether a text may name one entry of a folder.
pub fn is_segment(name: &str) -> bool
    ensures { result ≡ is_segment name.now }
{
    is_normal(name) && !has_slash(name)
}

fn has_slash(text: &str) -> bool
    ensures { result ≡ list_any is_slash text.now }
{
    text.bytes().any(|byte| byte == b'/')
}

/// The path of the entry `name` of a folder.
pub fn child(alloc: Global, folder: &str, name: &str) -> Result<String, AllocError>
    ensures { IfOk result (λ path. string_bytes path ≡ child_of folder.now name.now) }
{
    if folder.is_empty() {
        return String::from_str(alloc, name);
    }
    format!(in alloc; "{folder}/{name}")
}
