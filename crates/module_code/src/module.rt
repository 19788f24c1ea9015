ghost use Rattle.std.specs.Prelude.{◌≡◌, ◌<◌, ◌++◌, length, OnOk, IfOk};
ghost use Rattle.graph_types.specs.Whole.{IsWhole};
ghost use Rattle.module_code.specs.ModuleText.{plain_text, without_mark, json_text, record_text, module_text_of};
ghost use Rattle.module_code.specs.View.{IsSealing};

use crate::SealView;
use crate::body::add_body;
use crate::es::add_es;
use graph_types::{ModKind, ModRecord};
use pack_util::{BYTE_ORDER_MARK, ModuleNo, NoMemory, add};
use std::alloc::Global;

fn add_plain(
    text: &mut Vec<u8>,
    view: &SealView<'_>,
    m: ModuleNo,
    rec: &ModRecord,
) -> Result<(), NoMemory>
    requires sealing { IsSealing view.now }
    requires whole { IsWhole rec.now }
    ensures { OnOk result (text.new.items ≡ text.old.items ++ plain_text view.now m.0 rec.now) }
{
    add(text, b"function(module,exports,__cp){\n")?;
    add_body(text, view, m, rec)?;
    add(text, b"\n}")
}

fn without_mark(text: &[u8]) -> &[u8]
    ensures { result.now ≡ without_mark text.now }
{
    if text.starts_with(&BYTE_ORDER_MARK) {
        &text[3..]
    } else {
        text
    }
}

fn add_json(text: &mut Vec<u8>, rec: &ModRecord) -> Result<(), NoMemory>
    ensures { OnOk result (text.new.items ≡ text.old.items ++ json_text rec.now) }
{
    add(text, b"function(module){module.exports=\n")?;
    add(text, without_mark(rec.text.get()))?;
    add(text, b"\n}")
}

#[tactic(auto, unfolding(crate::specs::ModuleText::record_text))]
fn add_record(
    text: &mut Vec<u8>,
    view: &SealView<'_>,
    m: ModuleNo,
    rec: &ModRecord,
) -> Result<(), NoMemory>
    requires sealing { IsSealing view.now }
    requires whole { IsWhole rec.now }
    ensures { OnOk result (text.new.items ≡ text.old.items ++ record_text view.now m.0 rec.now) }
{
    match rec.kind {
        ModKind::Es => add_es(text, view, m, rec),
        ModKind::Plain | ModKind::Bad => add_plain(text, view, m, rec),
        ModKind::Json => add_json(text, rec),
    }
}

/// Adds the text of a module in a chunk.
pub fn add_module(text: &mut Vec<u8>, view: &SealView<'_>, m: ModuleNo) -> Result<(), NoMemory>
    requires sealing { IsSealing view.now }
    requires there { m.0 < length view.now.graph.records }
    ensures { OnOk result (text.new.items ≡ text.old.items ++ module_text_of view.now m.0) }
{
    add_record(text, view, m, view.graph.rec(m))
}

/// The text of a module in a chunk.
pub fn module_text(alloc: Global, view: &SealView<'_>, m: ModuleNo) -> Result<Vec<u8>, NoMemory>
    requires sealing { IsSealing view.now }
    requires there { m.0 < length view.now.graph.records }
    ensures { IfOk result (λ text. text.items ≡ module_text_of view.now m.0) }
{
    let mut text = Vec::new(alloc);
    add_module(&mut text, view, m)?;
    Ok(text)
}
