//! Calls of the first reader, while the others rest.
ghost use Rattle.std.specs.Prelude.{◌<◌, vec_len};
ghost use Rattle.pack_run.specs.inner.First.{Lists, OnFirst, Reads};

use outside::{OutsideEnd, ReadGot, TreeReader, Why};
use pack_util::MAX_TEXT;
use std::alloc::Global;
use tree_listing::{ListEnd, Listing, list};

/// The text of the configuration at a path.
pub(crate) fn read_first<R: TreeReader>(
    alloc: Global,
    readers: &mut Vec<R>,
    path: &str,
) -> Result<ReadGot, OutsideEnd>
    requires { 0 < vec_len readers.old }
    ensures { OnFirst (Reads R.follows R.view path.now result) readers.old.items readers.new.items }
{
    let reader = &mut readers[0];
    reader.read(alloc, path, Why::Config, MAX_TEXT)
}

/// The listing of the tree.
pub(crate) fn list_first<R: TreeReader>(
    alloc: Global,
    readers: &mut Vec<R>,
) -> Result<Listing, ListEnd>
    requires { 0 < vec_len readers.old }
    ensures { OnFirst (Lists R.follows R.view result) readers.old.items readers.new.items }
{
    let reader = &mut readers[0];
    list(alloc, reader)
}
