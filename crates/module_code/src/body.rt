ghost use Rattle.std.specs.Prelude.{◌≡◌, ◌++◌, ◌<◌, length, IfSome, OnOk};
ghost use Rattle.graph_types.specs.Edges.{blocks_of};
ghost use Rattle.graph_types.specs.Whole.{LieInOrder};
ghost use Rattle.module_code.specs.Blocks.{block_at, chunks_of_block};
ghost use Rattle.module_code.specs.Body.{require_text, eager_text, lazy_text, block_text, call_text, put_text, body_text};
ghost use Rattle.module_code.specs.Ids.{target_id, chunk_ids};
ghost use Rattle.module_code.specs.Numbers.{target_of};
ghost use Rattle.module_code.specs.View.{IsSealing};

use crate::SealView;
use crate::blocks::{block_at, chunks_of_block};
use crate::ids::{add_ids, add_module_id, add_target_id, chunk_ids};
use crate::numbers::target_of;
use graph_types::{EditText, Item, ItemKind, ModRecord};
use pack_util::{ModuleNo, NoMemory, add};

fn add_require(
    text: &mut Vec<u8>,
    view: &SealView<'_>,
    written: &[u8],
    item: &Item,
) -> Result<(), NoMemory>
    ensures { OnOk result (text.new.items ≡ text.old.items ++ require_text view.now written.now (target_of view.now.graph.records item.now)) }
{
    match target_of(view.graph, item) {
        Some(target) => {
            add(text, b"__cp(")?;
            add_module_id(text, view, target)?;
            add(text, b")")
        }
        None => add(text, written),
    }
}

fn add_eager(text: &mut Vec<u8>, view: &SealView<'_>, item: &Item) -> Result<(), NoMemory>
    ensures { OnOk result (text.new.items ≡ text.old.items ++ eager_text (target_id view.now item.now)) }
{
    add(text, b"Promise.resolve().then(function(){return __cp.x(")?;
    add_target_id(text, view, item)?;
    add(text, b")})")
}

fn add_block(
    text: &mut Vec<u8>,
    view: &SealView<'_>,
    block: u32,
    item: &Item,
) -> Result<(), NoMemory>
    requires sealing { IsSealing view.now }
    requires within { block < length (blocks_of view.now.graph.records) }
    ensures { OnOk result (text.new.items ≡ text.old.items
        ++ lazy_text (chunk_ids view.now.chunks (chunks_of_block view.now block)) (target_id view.now item.now)) }
{
    let ids = chunk_ids(*text.allocator(), view.chunks, chunks_of_block(view, block))?;
    add(text, b"__cp.e([")?;
    add_ids(text, &ids)?;
    add(text, b"]).then(function(){return __cp.x(")?;
    add_target_id(text, view, item)?;
    add(text, b")})")
}

fn add_lazy(
    text: &mut Vec<u8>,
    view: &SealView<'_>,
    written: &[u8],
    block: Option<u32>,
    item: &Item,
) -> Result<(), NoMemory>
    requires sealing { IsSealing view.now }
    requires within { IfSome block (λ block. block < length (blocks_of view.now.graph.records)) }
    ensures { OnOk result (text.new.items ≡ text.old.items ++ block_text view.now written.now item.now block) }
{
    match block {
        Some(block) => add_block(text, view, block, item),
        None => add(text, written),
    }
}

fn add_call(
    text: &mut Vec<u8>,
    view: &SealView<'_>,
    caller: ModuleNo,
    written: &[u8],
    number: u32,
    item: &Item,
) -> Result<(), NoMemory>
    requires { IsSealing view.now }
    ensures { OnOk result (text.new.items ≡ text.old.items ++ call_text view.now caller.0 written.now number item.now item.now.kind) }
{
    match item.kind {
        ItemKind::Require => add_require(text, view, written, item),
        ItemKind::Lazy => add_lazy(text, view, written, block_at(view, caller, number), item),
        ItemKind::Eager => add_eager(text, view, item),
        ItemKind::Import | ItemKind::ExportFrom => add(text, written),
    }
}

fn add_put(
    text: &mut Vec<u8>,
    view: &SealView<'_>,
    caller: ModuleNo,
    items: &[Item],
    written: &[u8],
    put: &EditText,
) -> Result<(), NoMemory>
    requires { IsSealing view.now }
    ensures { OnOk result (text.new.items ≡ text.old.items ++ put_text view.now caller.0 items.now written.now put.now) }
{
    match put {
        EditText::Fixed(fixed) => add(text, fixed.get().as_bytes()),
        EditText::Load(number) => match items.get(*number as usize) {
            Some(item) => add_call(text, view, caller, written, *number, item),
            None => add(text, written),
        },
    }
}

/// Adds a module's text with its edits.
pub fn add_body(
    text: &mut Vec<u8>,
    view: &SealView<'_>,
    m: ModuleNo,
    rec: &ModRecord,
) -> Result<(), NoMemory>
    requires sealing { IsSealing view.now }
    requires spans { LieInOrder 0 (length rec.now.text) rec.now.edits }
    ensures { OnOk result (text.new.items ≡ text.old.items ++ body_text view.now m.0 rec.now) }
{
    let source = rec.text.get();
    let items = rec.items.as_slice();
    let mut from = 0;
    for edit in rec.edits.as_slice() {
        let start = edit.span.start as usize;
        let end = edit.span.end as usize;
        add(text, &source[from..start])?;
        add_put(text, view, m, items, &source[start..end], &edit.put)?;
        from = end;
    }
    add(text, &source[from..])
}
