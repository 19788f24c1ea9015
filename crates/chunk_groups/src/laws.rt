//! What holds of the definitions: calls that do nothing and whose clauses are the laws.
ghost use Rattle.std.specs.Prelude.{◌≡◌, ℕ, ◌<◌, ◌⊎◌, List, [], ◌∷◌, ◌++◌, length, IsTrue};
ghost use Rattle.fault_place.specs.declared.fault.Fault.{Fault};
ghost use Rattle.graph_types.specs.declared.entry.EntrySpec.{EntrySpec};
ghost use Rattle.graph_types.specs.declared.record.ModRecord.{ModRecord};
ghost use Rattle.graph_types.specs.Graphs.{IsGraphOf};
ghost use Rattle.graph_types.specs.Modules.{Graph};
ghost use Rattle.chunk_groups.specs.ChunkGroups.{groups_of};
ghost use Rattle.chunk_groups.specs.Grouped.{net_of};
ghost use Rattle.chunk_groups.specs.Net.{Net, Reaches};
ghost use Rattle.chunk_groups.specs.Grown.{IsGrown};
ghost use Rattle.chunk_groups.specs.Histories.{IsHistory};
ghost use Rattle.chunk_groups.specs.Serving.{Placement, Holds, Serves, MayLack, IsSettled};

/// Each group has a load history where each block is found by steps from the entries. So no word on what is there
/// whenever a group is loaded is empty talk.
pub fn each_group_has_a_history()
    ensures { (net : Net) (on_demand : ℕ → List ℕ) (first : List ℕ) → IsGrown net on_demand first
        → (g : ℕ) → g < net.groups → (earlier : List ℕ) × IsHistory net (earlier ++ g ∷ []) }
{}

/// Each group of a graph has a load history: the graph holds the modules that are reached, so each block is found.
pub fn each_group_of_a_graph_has_a_history()
    ensures { (record_of : ℕ → ModRecord) (files : List (List ℕ)) (faults : List Fault) (graph : Graph) (entries : List EntrySpec)
        → ((file : ℕ) → (record_of file).file.0 ≡ file) → IsGraphOf record_of files faults graph → length files ≡ length entries
        → (g : ℕ) → g < length (groups_of graph entries)
        → (earlier : List ℕ) × IsHistory (net_of graph (groups_of graph entries)) (earlier ++ g ∷ []) }
{
    each_group_has_a_history();
}

/// How a checker tells that a placement serves, or that it doesn't, by rows of what is there.
pub fn serves_by_rows()
    ensures serves { (net : Net) (placed rows : Placement) → IsSettled net (Holds placed) rows
        → ((g m : ℕ) → g < net.groups → Reaches net g m → Holds placed g m ⊎ IsTrue (rows g m)) → Serves net placed }
    ensures fails { (net : Net) (placed : Placement) (g m : ℕ) → Reaches net g m → (Holds placed g m → ⊥)
        → MayLack net (Holds placed) g m → Serves net placed → ⊥ }
{}

/// What holds at least a placement that serves, serves.
pub fn serves_with_more()
    ensures { (net : Net) (placed more : Placement) → ((g m : ℕ) → Holds placed g m → Holds more g m)
        → Serves net placed → Serves net more }
{}
