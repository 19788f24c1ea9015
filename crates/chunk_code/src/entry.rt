ghost use Rattle.std.specs.Prelude.{◌≡◌, ◌<◌, length, IfOk};
ghost use Rattle.chunk_code.specs.Texts.{entry_text_of};
ghost use Rattle.module_code.specs.View.{IsSealing};

use crate::chunk::add_chunk;
use crate::runtime::add_runtime;
use crate::startup::add_startup;
use module_code::SealView;
use pack_util::{ChunkNo, GroupNo, NoMemory, Text};
use std::alloc::Global;

/// The text of an entry's chunk, which has the number of the entry's group. `files` are the ids of the chunks that are no
/// entry's, each with the file that has it.
pub fn entry_text(
    alloc: Global,
    view: &SealView<'_>,
    g: GroupNo,
    files: &[(u32, Text)],
) -> Result<Vec<u8>, NoMemory>
    requires sealing { IsSealing view.now }
    requires there { g.0 < length view.now.groups.infos }
    ensures { IfOk result (λ text. text.items ≡ entry_text_of view.now g.0 files.now) }
{
    let mut text = Vec::new(alloc);
    add_runtime(&mut text, view.config.public_path.get(), files)?;
    add_chunk(&mut text, view, ChunkNo(g.0))?;
    add_startup(&mut text, view, g)?;
    Ok(text)
}
