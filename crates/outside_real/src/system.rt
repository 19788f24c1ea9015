//! Calls of the system that follow no link below a root, and that leave no file half written.
use path_text::{child, is_normal};
use std::alloc::Global;
use std::fs::File;
use std::io::{ErrorKind, Read, Write};
use std::rt::Files;
use std::{fs, io};

/// How many names are tried for a new file.
const SPARE_NAMES: u32 = 1_000;

/// The place of a normal path below a root, or of the root itself. Only the root may be a link: each folder on the way is
/// one itself.
pub fn place_below(
    files: &impl Files,
    alloc: Global,
    root: &str,
    path: &str,
) -> io::Result<String> {
    if !path.is_empty() {
        require_normal(path)?;
    }
    let mut place = String::from_str(alloc, root)?;
    for (depth, name) in path.split('/').enumerate() {
        if depth > 0 {
            require_folder(files, place.as_str())?;
        }
        place = child(alloc, place.as_str(), name)?;
    }
    Ok(place)
}

/// As `place_below`, but makes the folders on the way that aren't there, and adds them to `made`.
pub fn make_place_below(
    files: &impl Files,
    alloc: Global,
    root: &str,
    path: &str,
    made: &mut Vec<String>,
) -> io::Result<String> {
    require_normal(path)?;
    let mut place = String::from_str(alloc, root)?;
    for (depth, name) in path.split('/').enumerate() {
        match fs::create_dir(files, place.as_str()) {
            Ok(()) => made.push(place.clone()?)?,
            Err(error) if error.kind() != ErrorKind::AlreadyExists => return Err(error),
            Err(_) if depth > 0 => require_folder(files, place.as_str())?,
            Err(_) => {}
        }
        place = child(alloc, place.as_str(), name)?;
    }
    Ok(place)
}

fn require_normal(path: &str) -> io::Result<()> {
    if is_normal(path) {
        Ok(())
    } else {
        Err(ErrorKind::InvalidFilename.into())
    }
}

pub fn require_folder(files: &impl Files, place: &str) -> io::Result<()> {
    if fs::symlink_metadata(files, place)?.is_dir() {
        Ok(())
    } else {
        Err(ErrorKind::NotADirectory.into())
    }
}

/// Opens a file, and neither a link nor a device or pipe, at which a reader might wait.
pub fn open_plain<F: Files>(files: &F, place: &str) -> io::Result<F::File> {
    if !fs::symlink_metadata(files, place)?.is_file() {
        return Err(ErrorKind::InvalidInput.into());
    }
    fs::open(files, place)
}

/// Whether a place is a file's own and the file holds these bytes. One that can't be read doesn't.
pub fn holds<F: Files + AllocGlobal>(files: &F, alloc: Global, place: &str, bytes: &[u8]) -> bool {
    match fs::symlink_metadata(files, place) {
        Ok(found) if found.is_file() && found.len() == bytes.len() as u64 => {}
        _ => return false,
    }
    let Ok(file) = fs::open(files, place) else {
        return false;
    };
    let mut held = Vec::new(alloc);
    let read = file.take(bytes.len() as u64).read_to_end(&mut held);
    read.is_ok() && held.as_slice() == bytes
}

/// Gives a name of a folder to a new file, once all bytes are written. What has the name keeps it until then, and is
/// never written to.
pub fn replace(
    files: &impl Files,
    alloc: Global,
    folder: &str,
    place: &str,
    bytes: &[u8],
) -> io::Result<()> {
    let (spare, mut file) = spare_file(files, alloc, folder)?;
    let replaced = match file.write_all(bytes) {
        Ok(()) => fs::rename(files, spare.as_str(), place),
        unwritten => unwritten,
    };
    if replaced.is_err() {
        fs::remove_file(files, spare.as_str())?;
    }
    replaced
}

/// A new file in a folder, with its place. Names that are taken are passed over, since another build may hold them.
fn spare_file<F: Files>(files: &F, alloc: Global, folder: &str) -> io::Result<(String, F::File)> {
    for number in 0..SPARE_NAMES {
        let place = format!(in alloc; "{folder}/.chunkpack-{number}")?;
        match File::create_new(files, place.as_str()) {
            Err(error) if error.kind() == ErrorKind::AlreadyExists => {}
            Err(error) => return Err(error),
            Ok(file) => return Ok((place, file)),
        }
    }
    Err(ErrorKind::AlreadyExists.into())
}
