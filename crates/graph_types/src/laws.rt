//! What holds of the definitions: calls that do nothing and whose clauses are the laws.
ghost use Rattle.std.specs.Prelude.{◌≡◌, ◌↔◌, ℕ, List, Contains};
ghost use Rattle.std.specs.List.Sorted.{IsStrictlyIncreasing};
ghost use Rattle.fault_place.specs.declared.fault.Fault.{Fault};
ghost use Rattle.graph_types.specs.Graphs.{IsGraphOf};
ghost use Rattle.graph_types.specs.Modules.{Graph};
ghost use Rattle.graph_types.specs.Reached.{IsReached, Walk};
ghost use Rattle.graph_types.specs.declared.record.ModRecord.{ModRecord};

/// The reached files have one list in the order of their numbers, whatever the order in which they were found.
pub fn one_reached_list()
    ensures { (targets_of : ℕ → List ℕ) (first one other : List ℕ)
        → IsStrictlyIncreasing one → IsStrictlyIncreasing other
        → IsReached targets_of first one → IsReached targets_of first other → one ≡ other }
{}

/// A file is reached exactly where a walk of zero or more steps leads to it from a first file, and the list of all such
/// files is a list of the reached ones.
pub fn reached_by_a_walk()
    ensures members { (targets_of : ℕ → List ℕ) (first members : List ℕ) → IsReached targets_of first members
        → (file : ℕ) → Contains members file ↔ ((steps : ℕ) × Walk targets_of first file steps) }
    ensures reached { (targets_of : ℕ → List ℕ) (first members : List ℕ)
        → ((file : ℕ) → Contains members file ↔ ((steps : ℕ) × Walk targets_of first file steps))
        → IsReached targets_of first members }
{}

/// The records of files, the entries' files and the faults that were found before have one graph.
pub fn one_graph()
    ensures { (record_of : ℕ → ModRecord) (entries : List (List ℕ)) (faults : List Fault) (one other : Graph)
        → IsGraphOf record_of entries faults one → IsGraphOf record_of entries faults other → one ≡ other }
{
    one_reached_list();
}
