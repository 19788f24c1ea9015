//! The build of one module.
ghost use Rattle.std.specs.Prelude.{◌≡◌, ◌<◌, ◌≤◌, length, IfOk};
ghost use Rattle.outside.specs.Cause.{HasCause};
ghost use Rattle.outside.specs.Tree.{Told};
ghost use Rattle.module_parse.specs.Whole.{IsParsed};
ghost use Rattle.path_text.specs.Path.{IsNormal};
ghost use Rattle.resolve_path.specs.Resolves.{KeepsManifests};
ghost use Rattle.tree_listing.specs.Listing.{IsListingOf};
ghost use Rattle.module_build.specs.Build.{Builds};
ghost use Rattle.module_build.specs.Shape.{IsSimple};
ghost use Rattle.module_build.specs.inner.Asks.{Resolves};

use crate::answering::answered;
use crate::asking::ask_all;
use es_scan::laws::targets_keep_a_scan_whole;
use graph_types::{Config, ModRecord};
use module_parse::{long_record, parse};
use outside::{OutsideEnd, ReadGot, TreeReader, Why};
use pack_util::{FileId, MAX_TEXT};
use path_text::laws::parent_is_folder;
use path_text::parent;
use resolve_path::ManifestCache;
use std::alloc::Global;
use tree_listing::Listing;

/// The record of a module whose text is parsed, with its requests resolved.
fn resolved<R: TreeReader>(
    alloc: Global,
    reader: &mut R,
    listing: &Listing,
    config: &Config,
    cache: &mut ManifestCache,
    file: FileId,
    path: &str,
    rec: ModRecord,
) -> Result<ModRecord, OutsideEnd>
    requires normal { IsNormal path.now }
    requires parsed { IsParsed file rec }
    ensures follows { R.follows reader.old reader.new }
    ensures cause { HasCause (R.view reader.old).faults (R.view reader.new).faults result }
    ensures shape { IfOk result (IsSimple (length listing.now.files) file) }
    ensures keeps { Told (R.view reader.old).tree (λ tree. KeepsManifests tree listing.now cache.old cache.new (R.view reader.old) (R.view reader.new)) }
    ensures is { Told (R.view reader.old).tree (λ tree. Resolves tree listing.now config.now path.now cache.old rec result) }
{
    parent_is_folder();
    targets_keep_a_scan_whole();
    let asked = ask_all(
        alloc,
        reader,
        listing,
        config,
        cache,
        parent(path),
        rec.items.as_slice(),
    )?;
    Ok(answered(alloc, rec, asked)?)
}

/// Reads the file with a number and makes its record: one read of it as a module, and of manifests what its requests ask for.
pub fn build_one<R: TreeReader>(
    alloc: Global,
    reader: &mut R,
    listing: &Listing,
    config: &Config,
    cache: &mut ManifestCache,
    file: FileId,
) -> Result<ModRecord, OutsideEnd>
    requires { file.0 < length listing.now.files }
    ensures follows { R.follows reader.old reader.new }
    ensures cause { HasCause (R.view reader.old).faults (R.view reader.new).faults result }
    ensures shape { IfOk result (IsSimple (length listing.now.files) file) }
    ensures told { Told (R.view reader.old).tree (λ tree. IsListingOf tree listing.now
        → Builds tree config.now file.0 cache.old cache.new (R.view reader.old) (R.view reader.new) result) }
{
    let path = listing.path(file);
    match reader.read(alloc, path, Why::Module, MAX_TEXT)? {
        ReadGot::Whole(text) => {
            let rec = parse(alloc, file, path, text)?;
            resolved(alloc, reader, listing, config, cache, file, path, rec)
        }
        ReadGot::TooLong => Ok(long_record(alloc, file, path, listing.length(file))?),
    }
}
