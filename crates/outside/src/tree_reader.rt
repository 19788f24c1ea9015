use crate::{DirEntry, OutsideEnd, ReadGot, Why};
use std::alloc::Global;

/// Reads the files and folders of a tree. The root is the folder `""`.
pub trait TreeReader: Drop {
    ghost use Rattle.std.specs.Prelude.{◌≡◌, Some};
    ghost use Rattle.outside.specs.Reads.{ListsFolder, ReadsPath};
    ghost use Rattle.outside.specs.Tree.{Tree, IsTree};
    ghost use Rattle.outside.specs.Views.{Keeps, ReaderView};

    /// What contracts see of it.
    ghost view: { Self → ReaderView };

    /// The second is the first after some calls.
    ghost follows: { Self → Self → Type 0 };

    /// The entries of a folder, in any order.
    fn list_dir(&mut self, alloc: Global, path: &str) -> Result<Vec<DirEntry>, OutsideEnd>
        ensures follows { follows self.old self.new }
        ensures lists { ListsFolder path.now (view self.old) (view self.new) result };

    /// The bytes of a file, where there are at most `most`.
    fn read(
        &mut self,
        alloc: Global,
        path: &str,
        why: Why,
        most: u64,
    ) -> Result<ReadGot, OutsideEnd>
        ensures follows { follows self.old self.new }
        ensures reads { ReadsPath path.now why most (view self.old) (view self.new) result };

    /// The count of faults. Takes no memory.
    fn faults(&self) -> u64
        ensures { result ≡ (view self.now).faults };

    ghost follows_itself: { (a : Self) → follows a a };

    ghost follows_on: { (a b c : Self) → follows a b → follows b c → follows a c };

    ghost keeps: { (a b : Self) → follows a b → Keeps (view a) (view b) };

    ghost tells_a_tree: { (a : Self) (t : Tree) → (view a).tree ≡ Some t → IsTree t };
}
