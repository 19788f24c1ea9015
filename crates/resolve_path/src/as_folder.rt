//! Paths as folders.
ghost use Rattle.std.specs.Prelude.{◌≡◌, ◌++◌, Some, length, option_map, flat_map, IfOk, IfSome};
ghost use Rattle.std.specs.Option.{option_copied};
ghost use Rattle.path_text.specs.Path.{IsFolderPath};
ghost use Rattle.resolve_path.specs.Files.{file_paths, main_file_paths};
ghost use Rattle.resolve_path.specs.Folders.{folder_places, main_at, main_paths, paths_as_file};
ghost use Rattle.resolve_path.specs.Manifests.{manifest_path};
ghost use Rattle.resolve_path.specs.Places.{HasFileWithin, answer_among, first_number};
ghost use Rattle.resolve_path.specs.inner.Parts.{path_named};

use crate::Resolution;
use crate::as_file::{as_file, main_file};
use graph_types::Config;
use pack_util::{FileId, NoMemory, Text};
use path_text::{PathEnd, child, join};
use pkg_manifest::Manifest;
use std::alloc::{AllocError, Global};
use tree_listing::Listing;

/// The path that a text names from a folder, where it names one.
pub(crate) fn joined(alloc: Global, folder: &str, text: &str) -> Result<Option<Text>, NoMemory>
    requires { IsFolderPath folder.now }
    ensures is { IfOk result (λ path. path ≡ path_named folder.now text.now) }
    ensures folder { IfOk result (λ path. IfSome path IsFolderPath) }
{
    match join(alloc, folder, text) {
        Ok(path) => Ok(Some(Text::from_string(path))),
        Err(PathEnd::NoMemory) => Err(AllocError),
        Err(_) => Ok(None),
    }
}

/// The path of a folder's manifest.
pub(crate) fn manifest_path(alloc: Global, folder: &str) -> Result<Text, NoMemory>
    ensures { IfOk result (λ path. path ≡ manifest_path folder.now) }
{
    Ok(Text::from_string(child(alloc, folder, "package.json")?))
}

/// A text that names a path as a file, unless it ends with a slash.
pub(crate) fn named_as_file(
    listing: &Listing,
    config: &Config,
    buffer: &mut String,
    text: &str,
    path: &str,
) -> Result<Option<FileId>, NoMemory>
    ensures { IfOk result (λ found. option_map (λ file. file.0) found ≡ first_number listing.now.files (paths_as_file config.now text.now path.now)) }
{
    if text.ends_with('/') {
        return Ok(None);
    }
    as_file(listing, config, buffer, "", path)
}

/// The text of a main field.
fn main_of<'a>(manifest: &'a Manifest, field: &str) -> Option<&'a str>
    ensures { option_copied result ≡ main_at manifest.now field.now }
{
    let main = manifest
        .mains
        .as_slice()
        .iter()
        .find(|main| main.0.get() == field)?;
    Some(main.1.get())
}

/// The file that a path is, or the main file of the folder that it is.
fn file_or_main_file(
    listing: &Listing,
    config: &Config,
    buffer: &mut String,
    path: &str,
) -> Result<Option<FileId>, NoMemory>
    ensures { IfOk result (λ found. option_map (λ file. file.0) found ≡ first_number listing.now.files (file_paths config.now path.now ++ main_file_paths config.now path.now)) }
{
    let found = as_file(listing, config, buffer, "", path)?;
    if found.is_some() {
        return Ok(found);
    }
    main_file(listing, config, buffer, path)
}

/// The file that a main field's text names from a folder.
fn main_named(
    alloc: Global,
    listing: &Listing,
    config: &Config,
    buffer: &mut String,
    folder: &str,
    main: Option<&str>,
) -> Result<Option<FileId>, NoMemory>
    requires { IsFolderPath folder.now }
    ensures { IfOk result (λ found. option_map (λ file. file.0) found ≡ first_number listing.now.files (main_paths config.now folder.now (option_copied main.entry))) }
{
    let Some(text) = main else {
        return Ok(None);
    };
    if text.is_empty() {
        return Ok(None);
    }
    match joined(alloc, folder, text)? {
        Some(path) => file_or_main_file(listing, config, buffer, path.get()),
        None => Ok(None),
    }
}

/// The first file that a main field names.
fn main_field(
    alloc: Global,
    listing: &Listing,
    config: &Config,
    buffer: &mut String,
    folder: &str,
    manifest: &Manifest,
) -> Result<Option<FileId>, NoMemory>
    requires { IsFolderPath folder.now }
    ensures { IfOk result (λ found. option_map (λ file. file.0) found
        ≡ first_number listing.now.files (flat_map (λ field. main_paths config.now folder.now (main_at manifest.now field)) config.now.main_fields)) }
{
    let mut left = config.main_fields.as_slice();
    while let [field, rest @ ..] = left {
        let main = main_of(manifest, field.get());
        let found = main_named(alloc, listing, config, buffer, folder, main)?;
        if found.is_some() {
            return Ok(found);
        }
        left = rest;
    }
    Ok(None)
}

/// The file of a folder with a manifest.
fn in_folder_with(
    alloc: Global,
    listing: &Listing,
    config: &Config,
    buffer: &mut String,
    folder: &str,
    manifest: &Manifest,
) -> Result<Option<FileId>, NoMemory>
    requires { IsFolderPath folder.now }
    ensures { IfOk result (λ found. option_map (λ file. file.0) found
        ≡ first_number listing.now.files (folder_places config.now folder.now (Some (Some manifest.now))).paths) }
{
    let found = main_field(alloc, listing, config, buffer, folder, manifest)?;
    if found.is_some() {
        return Ok(found);
    }
    main_file(listing, config, buffer, folder)
}

/// What a folder is, by what it has as a manifest.
pub(crate) fn in_folder(
    alloc: Global,
    listing: &Listing,
    config: &Config,
    buffer: &mut String,
    folder: &str,
    manifest: Option<&Option<Manifest>>,
) -> Result<Resolution, NoMemory>
    requires { IsFolderPath folder.now }
    ensures within { IfOk result (HasFileWithin (length listing.now.files)) }
    ensures is { IfOk result (λ answer. answer ≡ answer_among listing.now.files (folder_places config.now folder.now (option_copied manifest.entry))) }
{
    let found = match manifest {
        None => main_file(listing, config, buffer, folder)?,
        Some(None) => {
            return Ok(Resolution::BadManifest(manifest_path(alloc, folder)?));
        }
        Some(Some(manifest)) => {
            in_folder_with(alloc, listing, config, buffer, folder, manifest)?
        }
    };
    Ok(Resolution::file_or_unresolved(found))
}
