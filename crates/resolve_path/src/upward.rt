//! The folder of a package, searched upward.
ghost use Rattle.std.specs.Prelude.{◌≡◌, ◌∷◌, [], length, codes, nat_eq, Some, None, IfOk, IfSome, IsTrue, if◌then◌else◌};
ghost use Rattle.std.specs.List.{ends_with};
ghost use Rattle.path_text.specs.Path.{IsFolderPath, folder_segments};
ghost use Rattle.resolve_path.specs.Packages.{folders_from, holds_packages};
ghost use Rattle.resolve_path.specs.inner.Parts.{is_listed, package_among};

use crate::as_file::put;
use pack_util::{NoMemory, Text};
use path_text::parent;
use std::alloc::Global;
use tree_listing::Listing;

/// How many folders stand above a folder.
fn depth(folder: &str) -> usize
    ensures { result ≡ length (folder_segments folder.now) }
{
    if folder.is_empty() {
        return 0;
    }
    folder.split('/').count()
}

fn holds_packages(folder: &str) -> bool
    ensures { result ≡ holds_packages folder.now }
{
    folder == "node_modules" || ends_with_modules(folder)
}

fn ends_with_modules(folder: &str) -> bool
    ensures { result ≡ ends_with nat_eq folder.now (codes "/node_modules") }
{
    folder.ends_with("/node_modules")
}

fn is_listed(listing: &Listing, path: &str) -> bool
    ensures is { result ≡ is_listed listing.now.folders path.now }
    ensures folder { IsTrue result → IsFolderPath path.now }
{
    // Tells a proof what each listing keeps.
    let _count = listing.count();
    listing.is_folder(path)
}

/// A path, where it is a folder.
fn listed(alloc: Global, listing: &Listing, path: &str) -> Result<Option<Text>, NoMemory>
    ensures folder { IfOk result (λ found. IfSome found IsFolderPath) }
    ensures is { IfOk result (λ found. found ≡ (if is_listed listing.now.folders path.now then Some path.now else None)) }
{
    if is_listed(listing, path) {
        return Ok(Some(Text::new(alloc, path)?));
    }
    Ok(None)
}

/// The folder of a package that is asked for in a folder.
fn package_in(
    alloc: Global,
    listing: &Listing,
    buffer: &mut String,
    name: &str,
    folder: &str,
) -> Result<Option<Text>, NoMemory>
    ensures folder { IfOk result (λ found. IfSome found IsFolderPath) }
    ensures is { IfOk result (λ found. found ≡ package_among listing.now.folders name.now (folder.now ∷ [])) }
{
    if holds_packages(folder) {
        return Ok(None);
    }
    put(buffer, folder, "node_modules/", name)?;
    listed(alloc, listing, buffer.as_str())
}

/// The nearest folder of a package.
pub(crate) fn package_from(
    alloc: Global,
    listing: &Listing,
    buffer: &mut String,
    name: &str,
    base: &str,
) -> Result<Option<Text>, NoMemory>
    ensures folder { IfOk result (λ found. IfSome found IsFolderPath) }
    ensures is { IfOk result (λ found. found ≡ package_among listing.now.folders name.now (folders_from base.now)) }
{
    let mut folder = base;
    let mut above = depth(base);
    while above > 0 {
        let found = package_in(alloc, listing, buffer, name, folder)?;
        if found.is_some() {
            return Ok(found);
        }
        folder = parent(folder);
        above -= 1;
    }
    package_in(alloc, listing, buffer, name, folder)
}
