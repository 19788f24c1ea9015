//! What holds of the definitions: calls that do nothing and whose clauses are the laws.
ghost use Rattle.std.specs.Prelude.{◌≡◌, ◌≤◌, ◌↔◌, ◌++◌, [], ℕ, List, None, codes, length, true, false};
ghost use Rattle.json_order.specs.declared.tree.JsonPair.{JsonPair};
ghost use Rattle.pkg_exports.specs.Exports.{greatest, matches_of};
ghost use Rattle.pkg_exports.specs.Keys.{is_match, matched_part, outranks, part_after, part_before};
ghost use Rattle.pkg_exports.specs.Targets.{filled};

/// Of two keys with a `*` that match a subpath one is tried before the other, so no two decide.
pub fn matching_keys_are_ranked()
    ensures { (subpath key other : List ℕ) → is_match subpath key ≡ true → is_match subpath other ≡ true
        → outranks key other ≡ false → outranks other key ≡ false → key ≡ other }
{}

/// A key that matches cuts a subpath in three: its part before the `*`, a part that isn't empty, and its part after.
pub fn a_match_cuts_the_subpath()
    ensures { (subpath key : List ℕ) → is_match subpath key ≡ true
        → (subpath ≡ part_before key ++ (matched_part subpath key ++ part_after key)) × (1 ≤ length (matched_part subpath key)) }
{}

/// None of some members is taken exactly where the key of none matches.
pub fn a_match_is_taken_where_there_is_one()
    ensures { (subpath : List ℕ) (pairs : List JsonPair)
        → (greatest (matches_of subpath pairs) ≡ None) ↔ (matches_of subpath pairs ≡ []) }
{}

/// With `*` in the place of each `*`, as where there is no matched part, a target stays as it is.
pub fn star_stays()
    ensures { (text : List ℕ) → filled (codes "*") text ≡ text }
{}
