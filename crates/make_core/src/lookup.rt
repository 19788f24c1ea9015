//! Partial maps from files, kept as a list with a place for each file.
ghost use Rattle.std.specs.Prelude.{◌≡◌, ◌↔◌, Some, None, IsTrue, IfOk, replicate, slice_get, option_copied};
ghost use Rattle.make_core.specs.Core.{value_of};

use pack_util::{FileId, NoMemory};
use std::alloc::Global;

/// The map that has no value.
pub(crate) fn nothing<T: Drop>(alloc: Global, files: u32) -> Result<Vec<Option<T>>, NoMemory>
    ensures { IfOk result (λ map. map.items ≡ replicate files None) }
{
    let mut map = Vec::new(alloc);
    for _place in 0..files {
        map.push(None)?;
    }
    Ok(map)
}

pub(crate) fn value_at<T>(map: &[Option<T>], file: usize) -> Option<&T>
    ensures { option_copied result ≡ value_of map.now file }
{
    map.get(file)?.as_ref()
}

/// Whether the map has a place for the file, and no value.
pub(crate) fn is_unset<T>(map: &[Option<T>], file: FileId) -> bool
    ensures { IsTrue result ↔ (slice_get map.now file.0 ≡ Some None) }
{
    matches!(map.get(file.0 as usize), Some(None))
}
