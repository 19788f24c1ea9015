//! What definitions give: calls that do nothing and whose clauses are the rows.
ghost use Rattle.test_tables.specs.Claims.{OwnersAreFound};
ghost use Rattle.test_tables.specs.Clashes.{ClashesAreFound};
ghost use Rattle.test_tables.specs.Graph.{EdgesAreFollowed, ModulesAreFound};
ghost use Rattle.test_tables.specs.Kinds.{KindsAreNumbered, KindsAreWorded};
ghost use Rattle.test_tables.specs.Limits.{LimitsAreNamed, LimitsAreNumbered};
ghost use Rattle.test_tables.specs.Paths.{PathsAreTakenApart, TextsAreJoined, TextsAreNormal, TextsAreRefused};
ghost use Rattle.test_tables.specs.Places.{PlacesAreFound, SpotsAreFound};
ghost use Rattle.test_tables.specs.Texts.{TextsAreOrdered};

/// What each kind of fault says of a detail; where it names a chunk, a test has its line.
pub fn kinds_are_worded()
    ensures { KindsAreWorded }
{}

pub fn kinds_are_numbered()
    ensures { KindsAreNumbered }
{}

pub fn limits_are_named()
    ensures { LimitsAreNamed }
{}

pub fn limits_are_numbered()
    ensures { LimitsAreNumbered }
{}

pub fn spots_are_found()
    ensures { SpotsAreFound }
{}

pub fn places_are_found()
    ensures { PlacesAreFound }
{}

pub fn texts_are_normal()
    ensures { TextsAreNormal }
{}

pub fn texts_are_refused()
    ensures { TextsAreRefused }
{}

pub fn texts_are_joined()
    ensures { TextsAreJoined }
{}

pub fn paths_are_taken_apart()
    ensures { PathsAreTakenApart }
{}

pub fn texts_are_ordered()
    ensures { TextsAreOrdered }
{}

pub fn clashes_are_found()
    ensures { ClashesAreFound }
{}

pub fn modules_are_found()
    ensures { ModulesAreFound }
{}

pub fn edges_are_followed()
    ensures { EdgesAreFollowed }
{}

pub fn owners_are_found()
    ensures { OwnersAreFound }
{}
