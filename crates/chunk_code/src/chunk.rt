ghost use Rattle.std.specs.Prelude.{◌≡◌, ◌++◌, ℕ, ◌<◌, length, slice_index, OnOk, IfOk};
ghost use Rattle.chunk_code.specs.Texts.{member_text, members_text, add_text, chunk_text_of};
ghost use Rattle.chunk_code.specs.inner.Lines.{line_end};
ghost use Rattle.module_code.specs.View.{IsSealing};

use crate::members::members_of;
use module_code::{SealView, add_module, add_module_id, chunk_id};
use pack_util::{ChunkNo, ModuleNo, NoMemory, add, add_around};
use std::alloc::Global;

fn line_end(rest: &[u32]) -> &'static [u8]
    ensures { result.now ≡ line_end rest.now }
{
    match rest {
        [] => b"\n",
        [_, ..] => b",\n",
    }
}

fn add_member(text: &mut Vec<u8>, view: &SealView<'_>, m: ModuleNo) -> Result<(), NoMemory>
    requires sealing { IsSealing view.now }
    requires there { m.0 < length view.now.graph.records }
    ensures { OnOk result (text.new.items ≡ text.old.items ++ member_text view.now m.0) }
{
    add_module_id(text, view, m)?;
    add(text, b":")?;
    add_module(text, view, m)
}

fn add_members(text: &mut Vec<u8>, view: &SealView<'_>, members: &[u32]) -> Result<(), NoMemory>
    requires sealing { IsSealing view.now }
    requires there { (i : ℕ) → i < length members.now → slice_index members.now i < length view.now.graph.records }
    ensures { OnOk result (text.new.items ≡ text.old.items ++ members_text view.now members.now) }
{
    for (place, member) in members.iter().enumerate() {
        add_member(text, view, ModuleNo(*member))?;
        add(text, line_end(&members[place + 1..]))?;
    }
    Ok(())
}

fn add_modules(
    text: &mut Vec<u8>,
    view: &SealView<'_>,
    id: u32,
    members: &[u32],
) -> Result<(), NoMemory>
    requires sealing { IsSealing view.now }
    requires there { (i : ℕ) → i < length members.now → slice_index members.now i < length view.now.graph.records }
    ensures { OnOk result (text.new.items ≡ text.old.items ++ add_text view.now id members.now) }
{
    add_around(text, b"self.__chunkpack.a(", id as u64, b",{\n")?;
    add_members(text, view, members)?;
    add(text, b"});\n")?;
    Ok(())
}

/// Adds the call that adds a chunk's modules.
pub fn add_chunk(text: &mut Vec<u8>, view: &SealView<'_>, c: ChunkNo) -> Result<(), NoMemory>
    requires { IsSealing view.now }
    ensures { OnOk result (text.new.items ≡ text.old.items ++ chunk_text_of view.now c.0) }
{
    let id = chunk_id(view.chunks, c).unwrap_or(0);
    let members = members_of(*text.allocator(), view.chunks, c)?;
    add_modules(text, view, id, &members)
}

/// The text of a chunk that is no entry's: the call that adds its modules.
pub fn chunk_text(alloc: Global, view: &SealView<'_>, c: ChunkNo) -> Result<Vec<u8>, NoMemory>
    requires sealing { IsSealing view.now }
    requires there { c.0 < length view.now.chunks.chunks }
    ensures { IfOk result (λ text. text.items ≡ chunk_text_of view.now c.0) }
{
    let mut text = Vec::new(alloc);
    add_chunk(&mut text, view, c)?;
    Ok(text)
}
