//! What holds of the definitions: calls that do nothing and whose clauses are the laws.
ghost use Rattle.std.specs.Prelude.{◌≡◌, ℕ, List, Ok};
ghost use Rattle.path_text.specs.Child.{IsSegment, child_of};
ghost use Rattle.path_text.specs.Path.{IsFolderPath, IsNormal, join_of, normal_of, parent_of};

/// A normal path names itself.
pub fn normal_path_stays()
    ensures { (path : List ℕ) → IsNormal path → normal_of path ≡ Ok path }
{}

/// The folder of a normal path is one to join from.
pub fn parent_is_folder()
    ensures { (path : List ℕ) → IsNormal path → IsFolderPath (parent_of path) }
{}

/// From a folder, the name of an entry names the entry's path.
pub fn child_is_joined()
    ensures { (folder name : List ℕ) → IsFolderPath folder → IsSegment name
        → join_of folder name ≡ Ok (child_of folder name) }
{}

pub fn child_is_normal()
    ensures { (folder name : List ℕ) → IsFolderPath folder → IsSegment name
        → IsNormal (child_of folder name) }
{}

/// An entry stands in the folder whose entry it is.
pub fn child_has_parent()
    ensures { (folder name : List ℕ) → IsSegment name → parent_of (child_of folder name) ≡ folder }
{}
