use chunk_graph::ChunkGraph;
use graph_types::{Config, Groups, ModuleGraph};
use std::marker::Model;

/// What the texts of a build are made from.
#[derive(Drop)]
pub struct SealView<'a> {
    pub graph: &'a ModuleGraph,
    pub groups: &'a Groups,
    pub chunks: &'a ChunkGraph,
    pub config: &'a Config,
}

impl<'a> Model for SealView<'a> {
    ghost use Rattle.std.specs.Prelude.{refl};
    ghost use Rattle.std.specs.Coded.{code_by, coded×};
    ghost use Rattle.chunk_graph.specs.Chunks.{State};
    ghost use Rattle.chunk_graph.specs.contracts.graph.ChunkGraph as chunk_graph;
    ghost use Rattle.graph_types.specs.contracts.config.Config as configuration;
    ghost use Rattle.graph_types.specs.contracts.graph.ModuleGraph as module_graph;
    ghost use Rattle.graph_types.specs.contracts.groups.Groups as group_list;
    ghost use Rattle.graph_types.specs.declared.config.Config.{Config};
    ghost use Rattle.graph_types.specs.GroupList.{GroupList};
    ghost use Rattle.graph_types.specs.Modules.{Graph};
    ghost use Rattle.module_code.specs.View.{Sealing};

    ghost Value = { Sealing };

    ghost coded = { code_by ((Graph × GroupList) × (State × Config))
        (coded× (coded× module_graph.the_row.coded group_list.the_row.coded) (coded× chunk_graph.the_row.coded configuration.the_row.coded))
        (λ view. ((view.graph, view.groups), (view.chunks, view.config)))
        (λ parts. record { graph = parts.0.0; groups = parts.0.1; chunks = parts.1.0; config = parts.1.1 })
        (λ _. refl) };

    ghost view = { λ view. record {
      graph = view.graph.now;
      groups = view.groups.now;
      chunks = view.chunks.now;
      config = view.config.now;
    } };
}
