//! What holds of the definitions: calls that do nothing and whose clauses are the laws.
ghost use Rattle.std.specs.Prelude.{◌≡◌, ℕ, List, Result, Ok};
ghost use Rattle.chunk_graph.specs.declared.split.Split.{Split};
ghost use Rattle.chunk_graph.specs.Chunks.{State, has_module};
ghost use Rattle.chunk_groups.specs.Grouped.{net_of};
ghost use Rattle.chunk_groups.specs.Serving.{Serves};
ghost use Rattle.graph_types.specs.declared.config.Config.{Config};
ghost use Rattle.graph_types.specs.declared.groups.GroupInfo.{GroupInfo};
ghost use Rattle.graph_types.specs.Modules.{Graph};
ghost use Rattle.seal_build.specs.Final.{IsFinal};
ghost use Rattle.seal_build.specs.Seal.{SealsTo};
ghost use Rattle.seal_build.specs.Served.{IsServed};
ghost use Rattle.seal_build.specs.declared.seal_end.SealEnd.{SealEnd};
ghost use Rattle.seal_build.specs.declared.sealed.Sealed.{Sealed};

/// Along each load history, each module that a group reaches is in a final chunk of that group or of an earlier one.
pub fn final_serves()
    ensures { (graph : Graph) (config : Config) (infos : List GroupInfo) (splits : List Split) (final : State)
        → IsFinal graph config infos splits final → Serves (net_of graph infos) (has_module final) }
{}

/// The assets of an Ok answer are written from final chunks that serve.
pub fn sealed_serves()
    ensures { (graph : Graph) (config : Config) (path : List ℕ) (sealed : Sealed)
        → SealsTo graph config path (Ok sealed) → IsServed graph config path sealed }
{}

/// A graph and the configuration at a path are sealed to one thing: the assets and the stats, a limit, or faults.
pub fn one_outcome()
    ensures { (graph : Graph) (config : Config) (path : List ℕ) (one other : Result Sealed SealEnd)
        → SealsTo graph config path one → SealsTo graph config path other → one ≡ other }
{}
