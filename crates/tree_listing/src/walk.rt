ghost use Rattle.std.specs.Prelude.{◌≡◌, ◌⊎◌, ℕ, List, ◌+◌, ◌<◌, IfOk, OnOk, IsErrOf, vec_len};
ghost use Rattle.fault_place.specs.declared.limit.Limit.{Limit};
ghost use Rattle.fault_place.specs.declared.limit.Limit.TheVariants.{Files, PathBytes};
ghost use Rattle.outside.specs.Cause.{Rose};
ghost use Rattle.outside.specs.Tree.{Told};
ghost use Rattle.tree_listing.specs.Listing.{IsListing};
ghost use Rattle.tree_listing.specs.Lists.{Asks, ListsTree};
ghost use Rattle.tree_listing.specs.inner.Kept.{AreFound};
ghost use Rattle.tree_listing.specs.inner.Walk.{HasWalked, HasWalkedTo, Walks};

use crate::kept::{Kept, keep_all};
use crate::{ListEnd, Listing};
use outside::{EntryKind, TreeReader};
use std::alloc::Global;

/// Walks all folders from the root and lists what it finds. An entry whose name isn't a segment of a normal path is
/// passed over.
pub fn list<R: TreeReader>(alloc: Global, reader: &mut R) -> Result<Listing, ListEnd>
    ensures follows { R.follows reader.old reader.new }
    ensures asks { Asks (R.view reader.old) (R.view reader.new) result }
    ensures is { IfOk result (λ listing. IsListing listing) }
    ensures told { Told (R.view reader.old).tree (λ tree. ListsTree tree (R.view reader.old) (R.view reader.new) result) }
{
    let kept = walk(alloc, reader)?;
    Listing::new(alloc, kept)
}

/// All files and folders from the root on.
fn walk<R: TreeReader>(alloc: Global, reader: &mut R) -> Result<Vec<Kept>, ListEnd>
    ensures follows { R.follows reader.old reader.new }
    ensures asks { Asks (R.view reader.old) (R.view reader.new) result }
    ensures found { IfOk result (λ kept. AreFound kept.items) }
    ensures told { Told (R.view reader.old).tree (λ tree. HasWalked tree (R.view reader.old) (R.view reader.new) result) }
{
    let mut kept = Vec::new(alloc);
    kept.push(Kept::root(alloc)?)?;
    let mut listed = 0;
    while listed < kept.len() {
        list_one(alloc, reader, &mut kept, listed)?;
        listed += 1;
    }
    Ok(kept)
}

/// Lists what was kept at `place`, where it is a folder.
fn list_one<R: TreeReader>(
    alloc: Global,
    reader: &mut R,
    kept: &mut Vec<Kept>,
    place: usize,
) -> Result<(), ListEnd>
    requires found { AreFound kept.old.items }
    requires there { place < vec_len kept.old }
    ensures follows { R.follows reader.old reader.new }
    ensures asks { Asks (R.view reader.old) (R.view reader.new) result }
    ensures found { OnOk result (AreFound kept.new.items) }
    ensures told { Told (R.view reader.old).tree (λ tree. (first : List (List ℕ)) → HasWalkedTo tree first place kept.old.items (R.view reader.old) → Walks tree first (place + 1) kept.new.items (R.view reader.old) (R.view reader.new) result) }
{
    if let EntryKind::File(_) = kept[place].kind {
        return Ok(());
    }
    let folder = kept[place].path.clone()?;
    let entries = reader.list_dir(alloc, folder.get())?;
    keep_all(alloc, kept, folder.get(), entries)
}
