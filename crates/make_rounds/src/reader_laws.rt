//! What holds of readers that are handed in together.
ghost use Rattle.std.specs.Prelude.{◌≡◌, List};
ghost use Rattle.std.specs.List.{AllZip};
ghost use Rattle.build_round.specs.Readers.{AllTell, SomeRose};
ghost use Rattle.outside.specs.Tree.{Tree};

use outside::TreeReader;

/// Does nothing: its clauses are laws of readers.
pub(crate) fn reader_laws<R: TreeReader>(_readers: &Vec<R>)
    ensures itself { (readers : List R) → AllZip R.follows readers readers }
    ensures on { (before between now : List R) → AllZip R.follows before between → AllZip R.follows between now → AllZip R.follows before now }
    ensures tell { (before now : List R) → AllZip R.follows before now → (tree : Tree) → AllTell R.view before tree → AllTell R.view now tree }
    ensures rose_first { (before between now : List R) → AllZip R.follows between now → SomeRose R.view before between → SomeRose R.view before now }
    ensures rose_then { (before between now : List R) → AllZip R.follows before between → SomeRose R.view between now → SomeRose R.view before now }
{}
