//! What holds of the definitions: calls that do nothing and whose clauses are the laws.
ghost use Rattle.std.specs.Prelude.{◌≡◌, ◌↔◌, ℕ, List, []};
ghost use Rattle.graph_types.specs.declared.part.Part.{Part};
ghost use Rattle.asset_names.specs.Clashes.{clashes_of, HaveOwnNames};
ghost use Rattle.asset_names.specs.Template.{IsTemplateOf};

/// A text has at most one template.
pub fn one_template()
    ensures { (digits : ℕ) (text : List ℕ) (one other : List Part)
        → IsTemplateOf digits text one → IsTemplateOf digits text other → one ≡ other }
{}

/// Nothing clashes exactly where each member has a name of its own, and none that of the stats.
pub fn no_clash()
    ensures { (path : List ℕ) (members : List (ℕ × List ℕ)) → (clashes_of path members ≡ []) ↔ HaveOwnNames members }
{}
