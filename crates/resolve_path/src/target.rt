//! What a package exports.
ghost use Rattle.std.specs.Prelude.{◌≡◌, Some, Ok, length, IfOk};
ghost use Rattle.path_text.specs.Path.{IsFolderPath};
ghost use Rattle.pkg_exports.specs.Exports.{target_of};
ghost use Rattle.resolve_path.specs.Packages.{conditions_of, subpath_of, target_places};
ghost use Rattle.resolve_path.specs.Places.{HasFileWithin, answer_among};

use crate::as_folder::{joined, manifest_path};
use crate::{RequestKind, Resolution};
use graph_types::Config;
use json_order::JsonTree;
use pack_util::{NoMemory, Text};
use pkg_exports::{ExportsEnd, export_target};
use std::alloc::{AllocError, Global};
use tree_listing::Listing;

fn subpath(alloc: Global, rest: &str) -> Result<Text, NoMemory>
    ensures { IfOk result (λ subpath. subpath ≡ subpath_of rest.now) }
{
    if rest.is_empty() {
        return Text::new(alloc, ".");
    }
    Ok(Text::from_string(format!(in alloc; "./{rest}")?))
}

fn conditions(alloc: Global, config: &Config, kind: RequestKind) -> Result<Vec<Text>, NoMemory>
    ensures { IfOk result (λ conditions. conditions.items ≡ conditions_of config.now kind) }
{
    let mut conditions = Vec::new(alloc);
    for condition in config.conditions.as_slice() {
        conditions.push(condition.clone()?)?;
    }
    conditions.push(Text::new(alloc, kind.condition())?)?;
    Ok(conditions)
}

/// The file that a target of a package names, without extensions and main files.
fn target_file(
    alloc: Global,
    listing: &Listing,
    folder: &str,
    target: &str,
) -> Result<Resolution, NoMemory>
    requires { IsFolderPath folder.now }
    ensures within { IfOk result (HasFileWithin (length listing.now.files)) }
    ensures is { IfOk result (λ answer. answer ≡ answer_among listing.now.files (target_places folder.now (Ok (Some target.now)))) }
{
    let found = match joined(alloc, folder, target)? {
        Some(path) => listing.find(path.get()),
        None => None,
    };
    Ok(Resolution::file_or_unresolved(found))
}

/// What a package's `exports` says of what follows its name.
pub(crate) fn exported(
    alloc: Global,
    listing: &Listing,
    config: &Config,
    kind: RequestKind,
    folder: &str,
    exports: &JsonTree,
    rest: &str,
) -> Result<Resolution, NoMemory>
    requires { IsFolderPath folder.now }
    ensures within { IfOk result (HasFileWithin (length listing.now.files)) }
    ensures is { IfOk result (λ answer. answer ≡ answer_among listing.now.files (target_places folder.now (target_of exports.now (subpath_of rest.now) (conditions_of config.now kind)))) }
{
    let subpath = subpath(alloc, rest)?;
    let conditions = conditions(alloc, config, kind)?;
    match export_target(alloc, exports, subpath.get(), conditions.as_slice()) {
        Ok(Some(target)) => target_file(alloc, listing, folder, target.get()),
        Ok(None) => Ok(Resolution::NotExported),
        Err(ExportsEnd::NoMemory) => Err(AllocError),
        Err(_) => Ok(Resolution::BadTarget(manifest_path(alloc, folder)?)),
    }
}
