//! What holds of the definitions: calls that do nothing and whose clauses are the laws.
ghost use Rattle.std.specs.Prelude.{◌≡◌, ◌≢◌, ◌⊎◌, ◌+◌, ◌≤◌, ℕ, List, [], length, All, AllPairs, Contains};
ghost use Rattle.fault_place.specs.declared.limit.Limit.TheVariants.{Files};
ghost use Rattle.fault_place.specs.Limit.{number_of};
ghost use Rattle.tree_listing.specs.Listing.{Listed, IsListing, IsNamedIn};

/// What is listed, but for the root, stands in a listed folder by a name of one segment: an entry with another name is
/// passed over.
pub fn others_are_passed_over()
    ensures files { (listing : Listed) (file : List ℕ × ℕ) → IsListing listing
        → Contains listing.files file → IsNamedIn listing.folders file.0 }
    ensures folders { (listing : Listed) (path : List ℕ) → IsListing listing
        → Contains listing.folders path → (path ≡ []) ⊎ IsNamedIn listing.folders path }
{}

/// Each folder but the root counts beside the files, also one without a file.
pub fn folders_count()
    ensures { (listing : Listed) (paths : List (List ℕ)) → IsListing listing
        → All (Contains listing.folders) paths → AllPairs (λ one other. one ≢ other) paths → All (λ path. path ≢ []) paths
        → length listing.files + length paths ≤ number_of Files }
{}
