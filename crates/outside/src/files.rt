//! Look-ups in a list of files that is sorted by path.
ghost use Rattle.std.specs.Prelude.{◌≡◌, None, filter, is_ok, option_copied, if◌then◌else◌, IsTrue};
ghost use Rattle.std.specs.Ordering.{nat_cmp};
ghost use Rattle.std.specs.Cmp.Lexicographic.{slice_cmp};
ghost use Rattle.std.specs.FinMap.Entries.{find, is_sorted, put};
ghost use Rattle.outside.specs.inner.Cut.{IsCut, is_before, has_prefix};

use pack_util::{Bytes, NoMemory, Text};

/// How many files stand before a path.
pub fn count_before(files: &[(Text, Bytes)], path: &[u8]) -> usize
    requires { IsTrue (is_sorted (slice_cmp nat_cmp) files.now) }
    ensures { IsCut (is_before path.now) files.now result }
{
    files.partition_point(|file| file.0.get().as_bytes().cmp(path).is_lt())
}

/// The bytes of the file at a path.
pub fn find_file<'a>(files: &'a [(Text, Bytes)], path: &[u8]) -> Option<&'a Bytes>
    requires { IsTrue (is_sorted (slice_cmp nat_cmp) files.now) }
    ensures { option_copied result ≡ find (slice_cmp nat_cmp) path.now files.now }
{
    let rest = &files[count_before(files, path)..];
    let file = rest.first()?;
    (file.0.get().as_bytes() == path).then_some(&file.1)
}

/// The files whose paths begin so, which stand together.
pub fn files_with_prefix<'a>(files: &'a [(Text, Bytes)], prefix: &[u8]) -> &'a [(Text, Bytes)]
    requires { IsTrue (is_sorted (slice_cmp nat_cmp) files.now) }
    ensures { result.now ≡ filter (has_prefix prefix.now) files.now }
{
    let rest = &files[count_before(files, prefix)..];
    let end = rest.partition_point(|file| file.0.get().as_bytes().starts_with(prefix));
    &rest[..end]
}

/// Puts a file whose path is new in its place.
pub fn put_file(files: &mut Vec<(Text, Bytes)>, file: (Text, Bytes)) -> Result<(), NoMemory>
    requires sorted { IsTrue (is_sorted (slice_cmp nat_cmp) files.old.items) }
    requires absent { find (slice_cmp nat_cmp) file.0 files.old.items ≡ None }
    ensures { files.new.items
        ≡ (if is_ok result then put (slice_cmp nat_cmp) file.0 file.1 files.old.items else files.old.items) }
{
    let place = count_before(files, file.0.get().as_bytes());
    files.insert(place, file)?;
    Ok(())
}
