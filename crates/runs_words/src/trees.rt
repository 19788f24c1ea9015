use asset_names::content_hash;
use outside::{MemReader, MemTree, ReadGot, TreeReader, Why};
use pack_util::{Bytes, FileId, MAX_TEXT};
use std::alloc::{AllocError, Global};
use tree_listing::{Listing, list};
use tree_sample::{SampleEnd, sample_tree};

/// The bytes of a file that is there.
fn bytes_of(alloc: Global, reader: &mut MemReader<'_>, path: &str) -> Result<Bytes, AllocError> {
    match reader.read(alloc, path, Why::Module, MAX_TEXT) {
        Ok(ReadGot::Whole(bytes)) => Ok(bytes),
        _ => Err(AllocError),
    }
}

fn listed(alloc: Global, reader: &mut MemReader<'_>) -> Result<Listing, AllocError> {
    match list(alloc, reader) {
        Ok(listing) => Ok(listing),
        Err(_) => Err(AllocError),
    }
}

/// A line for a file, and its text where it is a module's.
fn show_file(alloc: Global, text: &mut String, path: &str, bytes: &[u8]) -> Result<(), AllocError> {
    let hash = content_hash(alloc, bytes, 64)?;
    let (length, digits) = (bytes.len(), hash.get());
    write!(text, "{path} {length} {digits}\n")?;
    if path.starts_with("src/") {
        text.push_str(std::str::from_utf8(bytes).unwrap_or("not UTF-8\n"))?;
    }
    Ok(())
}

fn show_files(alloc: Global, text: &mut String, tree: &MemTree) -> Result<(), AllocError> {
    let mut reader = MemReader::new(alloc, tree);
    let listing = listed(alloc, &mut reader)?;
    for number in 0..listing.count() {
        let path = listing.path(FileId(number));
        let bytes = bytes_of(alloc, &mut reader, path)?;
        show_file(alloc, text, path, bytes.get())?;
    }
    Ok(())
}

pub fn tree_text(alloc: Global, n: u32) -> Result<String, AllocError> {
    let mut text = String::new(alloc);
    match sample_tree(alloc, n) {
        Ok(tree) => show_files(alloc, &mut text, &tree)?,
        Err(SampleEnd::OutOfRange) => text.push_str("out of range")?,
        Err(SampleEnd::NoMemory) => return Err(AllocError),
    }
    Ok(text)
}

/// The hash of all that [`tree_text`] shows.
pub fn tree_hash(alloc: Global, n: u32) -> Result<String, AllocError> {
    let text = tree_text(alloc, n)?;
    let hash = content_hash(alloc, text.as_str().as_bytes(), 64)?;
    String::from_str(alloc, hash.get())
}
