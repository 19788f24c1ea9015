ghost use Rattle.std.specs.Prelude.{◌≡◌, ◌<◌, ◌^◌, length, slice_index_or, vec_len};

use pack_util::{GroupNo, ModuleNo, Seq, Text};
use std::marker::Model;

/// A set of modules that are loaded together: an entry's, or what blocks load on demand.
#[derive(Drop)]
pub struct GroupInfo {
    /// The entry's place in the configuration, where the group is an entry's.
    pub entry: Option<u32>,
    pub name: Option<Text>,
    /// The entry's modules in the order of the configuration, or the targets of the blocks. A repeat is kept.
    pub roots: Seq<ModuleNo>,
    /// The numbers of the blocks that load the group.
    pub blocks: Seq<u32>,
}

/// All chunk groups: those of the entries, then those of the chunk names, then those of the blocks without a name.
#[derive(Drop)]
pub struct Groups {
    infos: Vec<GroupInfo>,
    of_block: Vec<GroupNo>,
}

impl Model for Groups {
    ghost use Rattle.std.specs.Prelude.{◌<◌, ◌^◌, length};
    ghost use Rattle.graph_types.specs.GroupList.{GroupList};

    ghost Value = { GroupList };

    ghost view = { λ groups. record { infos = groups.infos.items; of_block = groups.of_block.items } };

    ghost invariant = { λ groups. length groups.infos.items < 2 ^ 32 };
}

impl Groups {
    /// The groups, and the group of each block. Takes no memory.
    pub fn new(infos: Vec<GroupInfo>, of_block: Vec<GroupNo>) -> Groups
        requires { vec_len infos < 2 ^ 32 }
        ensures { result ≡ record { infos = infos.items; of_block = of_block.items } }
    {
        Groups { infos, of_block }
    }

    pub fn count(&self) -> u32
        ensures { result ≡ length self.now.infos }
    {
        self.infos.len() as u32
    }

    pub fn info(&self, g: GroupNo) -> &GroupInfo
        requires { g.0 < length self.now.infos }
        ensures { result.now ≡ slice_index_or self.now.infos g.0 result.now }
    {
        &self.infos[g.0 as usize]
    }

    /// The group that a block loads.
    pub fn of_block(&self, b: u32) -> GroupNo
        requires { b < length self.now.of_block }
        ensures { result ≡ slice_index_or self.now.of_block b result }
    {
        self.of_block[b as usize]
    }
}
