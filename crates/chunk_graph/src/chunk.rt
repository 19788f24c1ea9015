ghost use Rattle.std.specs.Prelude.{◌≡◌, length};
ghost use Rattle.chunk_graph.specs.Moves.{moved_one};

use bit_rows::BitRow;
use pack_util::Text;

/// One chunk. Its row has a place for each module.
#[derive(Drop)]
pub struct Chunk {
    /// Whether a group of an entry started with it.
    pub entry: bool,
    pub name: Option<Text>,
    pub mods: BitRow,
    /// Whether it is in no group any more, for good.
    pub gone: bool,
    /// Whether a split made it or gave it its modules.
    pub closed: bool,
}

/// Adds the modules where the chunk is their new one, and takes them away where they leave it.
pub fn move_one(chunk: &mut Chunk, modules: &BitRow, is_to: bool, leaves: bool)
    requires { length chunk.old.mods ≡ length modules.now }
    ensures { chunk.new ≡ moved_one modules.now is_to leaves chunk.old }
{
    if is_to {
        chunk.mods.union_with(modules);
    } else if leaves {
        chunk.mods.minus(modules);
    }
}
