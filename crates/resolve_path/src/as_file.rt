//! Paths as files.
ghost use Rattle.std.specs.Prelude.{◌≡◌, ◌++◌, [], bytes_eq, map, option_map, IfOk, string_bytes, OnOk};
ghost use Rattle.path_text.specs.Child.{child_of};
ghost use Rattle.resolve_path.specs.Files.{file_paths, main_file_paths};
ghost use Rattle.resolve_path.specs.Places.{first_number};
ghost use Rattle.tree_listing.specs.Listing.{number_at};

use graph_types::Config;
use pack_util::{FileId, NoMemory, Text};
use tree_listing::Listing;

/// Puts the path of an entry of a folder, and an ending, into the buffer.
pub(crate) fn put(
    buffer: &mut String,
    folder: &str,
    name: &str,
    ending: &str,
) -> Result<(), NoMemory>
    ensures { OnOk result (string_bytes buffer.new ≡ child_of folder.now name.now ++ ending.now) }
{
    buffer.clear();
    if !folder.is_empty() {
        buffer.push_str(folder)?;
        buffer.push_str("/")?;
    }
    buffer.push_str(name)?;
    buffer.push_str(ending)
}

/// The file at the path of an entry with an ending.
fn look(
    listing: &Listing,
    buffer: &mut String,
    folder: &str,
    name: &str,
    ending: &str,
) -> Result<Option<FileId>, NoMemory>
    ensures { IfOk result (λ found. option_map (λ file. file.0) found ≡ number_at listing.now.files (child_of folder.now name.now ++ ending.now)) }
{
    put(buffer, folder, name, ending)?;
    Ok(listing.find(buffer.as_str()))
}

/// The first of the files at the path of an entry with each ending.
fn look_with(
    listing: &Listing,
    buffer: &mut String,
    folder: &str,
    name: &str,
    endings: &[Text],
) -> Result<Option<FileId>, NoMemory>
    ensures { IfOk result (λ found. option_map (λ file. file.0) found ≡ first_number listing.now.files (map (λ ending. child_of folder.now name.now ++ ending) endings.now)) }
{
    let mut left = endings;
    while let [ending, rest @ ..] = left {
        let found = look(listing, buffer, folder, name, ending.get())?;
        if found.is_some() {
            return Ok(found);
        }
        left = rest;
    }
    Ok(None)
}

/// Whether an entry of a folder is the root, which is no file.
fn is_root(folder: &str, name: &str) -> bool
    ensures { result ≡ bytes_eq (child_of folder.now name.now) [] }
{
    folder.is_empty() && name.is_empty()
}

/// The entry `name` of a folder as a file.
pub(crate) fn as_file(
    listing: &Listing,
    config: &Config,
    buffer: &mut String,
    folder: &str,
    name: &str,
) -> Result<Option<FileId>, NoMemory>
    ensures { IfOk result (λ found. option_map (λ file. file.0) found ≡ first_number listing.now.files (file_paths config.now (child_of folder.now name.now))) }
{
    if is_root(folder, name) {
        return Ok(None);
    }
    let found = look(listing, buffer, folder, name, "")?;
    if found.is_some() {
        return Ok(found);
    }
    look_with(listing, buffer, folder, name, config.extensions.as_slice())
}

/// The first of a folder's main files.
pub(crate) fn main_file(
    listing: &Listing,
    config: &Config,
    buffer: &mut String,
    folder: &str,
) -> Result<Option<FileId>, NoMemory>
    ensures { IfOk result (λ found. option_map (λ file. file.0) found ≡ first_number listing.now.files (main_file_paths config.now folder.now)) }
{
    let mut left = config.main_files.as_slice();
    while let [name, rest @ ..] = left {
        let found = as_file(listing, config, buffer, folder, name.get())?;
        if found.is_some() {
            return Ok(found);
        }
        left = rest;
    }
    Ok(None)
}
