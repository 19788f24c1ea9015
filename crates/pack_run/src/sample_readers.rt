//! Readers of a sample tree, none of whose reads fails.
ghost use Rattle.std.specs.Prelude.{◌≡◌, ◌≤◌, length, IfOk};
ghost use Rattle.pack_run.specs.inner.Fresh.{AreFresh};

use outside::{MemReader, MemTree};
use pack_util::NoMemory;
use std::alloc::Global;

/// So many readers of a tree, before their first call.
pub(crate) fn sample_readers<'a>(
    alloc: Global,
    tree: &'a MemTree,
    count: u32,
) -> Result<Vec<MemReader<'a>>, NoMemory>
    ensures many { IfOk result (λ readers. length readers.items ≡ count) }
    ensures fresh { IfOk result (λ readers. AreFresh tree.now readers.items) }
{
    let mut readers = Vec::new(alloc);
    for _ in 0..count {
        readers.push(MemReader::new(alloc, tree))?;
    }
    Ok(readers)
}
