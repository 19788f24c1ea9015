ghost use Rattle.std.specs.Prelude.{◌≡◌, ◌+◌, ◌-◌, ◌<◌, ◌^◌, IfOk};
ghost use Rattle.form_shapes.specs.Source.{start_at, end_at};
ghost use Rattle.es_scan.specs.Items.{declared_kind, span_of, import_item, declared_item, item_by, item_of};

use form_shapes::{Form, Shape, Source, Standing, owned, unquoted};
use graph_types::{Item, ItemKind};
use magic_comments::Magic;
use pack_util::{NoMemory, Span, Text};
use std::alloc::Global;

/// The kind of a declaration's item, where it names a module.
pub(crate) fn declared_kind(shape: Shape) -> Option<ItemKind>
    ensures { result ≡ declared_kind shape }
{
    match shape {
        Shape::BareImport
        | Shape::DefaultImport
        | Shape::SpaceImport
        | Shape::NamesImport
        | Shape::DefaultSpaceImport
        | Shape::DefaultNamesImport => Some(ItemKind::Import),
        Shape::StarExport | Shape::SpaceExport | Shape::NamesFromExport => {
            Some(ItemKind::ExportFrom)
        }
        _ => None,
    }
}

/// From the first byte of a token to the last before another.
pub(crate) fn span_of(source: Source, at: usize, end: usize) -> Span
    ensures { result ≡ span_of source.entry.tokens.now at end }
{
    Span {
        start: source.start_at(at),
        end: source.end_at(end.saturating_sub(1)),
    }
}

fn item_of(
    alloc: Global,
    source: Source,
    kind: ItemKind,
    span: Span,
    request: usize,
    chunk_name: Option<Text>,
) -> Result<Item, NoMemory>
    ensures { IfOk result
        (λ item. item ≡ item_of source.entry.text.now source.entry.tokens.now kind span request chunk_name) }
{
    Ok(Item {
        kind,
        span,
        at: source.start_at(request),
        request: owned(alloc, unquoted(source.text_at(request)))?,
        chunk_name,
        target: None,
    })
}

fn clone_name(name: &Option<Text>) -> Result<Option<Text>, NoMemory>
    ensures { IfOk result (λ copy. copy ≡ name.now) }
{
    match name {
        Some(name) => Ok(Some(name.clone()?)),
        None => Ok(None),
    }
}

fn import_item(
    alloc: Global,
    source: Source,
    at: usize,
    form: Form,
    magic: &Magic,
) -> Result<Option<Item>, NoMemory>
    requires { at < 2 ^ 32 }
    ensures { IfOk result
        (λ item. item ≡ import_item source.entry.text.now source.entry.tokens.now at magic.now form) }
{
    if magic.ignored {
        return Ok(None);
    }
    let span = span_of(source, at, form.end);
    let item = if magic.eager {
        item_of(alloc, source, ItemKind::Eager, span, at + 2, None)?
    } else {
        let name = clone_name(&magic.name)?;
        item_of(alloc, source, ItemKind::Lazy, span, at + 2, name)?
    };
    Ok(Some(item))
}

fn declared_item(
    alloc: Global,
    source: Source,
    at: usize,
    form: Form,
) -> Result<Option<Item>, NoMemory>
    ensures { IfOk result
        (λ item. item ≡ declared_item source.entry.text.now source.entry.tokens.now at form) }
{
    let Some(kind) = declared_kind(form.shape) else {
        return Ok(None);
    };
    let span = span_of(source, at, form.end);
    let item = item_of(
        alloc,
        source,
        kind,
        span,
        form.parts.saturating_sub(1),
        None,
    )?;
    Ok(Some(item))
}

/// The item of what stands at a token, where it names a module.
#[tactic(auto, unfolding(crate::specs::Items::item_by))]
pub(crate) fn item_by(
    alloc: Global,
    source: Source,
    at: usize,
    standing: Standing,
    magic: &Magic,
) -> Result<Option<Item>, NoMemory>
    requires { at < 2 ^ 32 }
    ensures { IfOk result
        (λ item. item ≡ item_by source.entry.text.now source.entry.tokens.now at magic.now standing) }
{
    match standing {
        Standing::Declaration(form) => declared_item(alloc, source, at, form),
        Standing::ImportCall(form) => import_item(alloc, source, at, form, magic),
        Standing::RequireCall(form) => {
            let span = span_of(source, at, form.end);
            let item = item_of(alloc, source, ItemKind::Require, span, at + 2, None)?;
            Ok(Some(item))
        }
        _ => Ok(None),
    }
}
