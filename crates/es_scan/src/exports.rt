ghost use Rattle.std.specs.Prelude.{◌≡◌, ◌+◌, ◌<◌, ◌^◌, IfOk, map};
ghost use Rattle.es_scan.specs.Exports.{space_export, default_name, default_export, own_export, specifier_from, specifier_export, names_exports, variables_exports, form_exports, exports_by};

use crate::default::{Default, default_at};
use crate::list::one;
use crate::names::{left_name, right_name};
use es_tokens::Token;
use form_shapes::{Form, Shape, Source, Standing, owned};
use graph_types::{Export, ExportFrom};
use pack_util::{NoMemory, Seq, Text};
use std::alloc::{AllocError, Global};

/// The module's own name for what it exports as the default without one.
pub(crate) const DEFAULT_NAME: &str = "__cp_default";

fn space_export(alloc: Global, source: Source, item: u32, at: usize) -> Result<Export, NoMemory>
    ensures { IfOk result
        (λ export. export ≡ space_export source.entry.text.now source.entry.tokens.now item at) }
{
    Ok(Export {
        name: owned(alloc, source.text_at(at))?,
        from: ExportFrom::Space(item),
    })
}

fn default_name(alloc: Global, source: Source, default: Default) -> Result<Text, NoMemory>
    ensures { IfOk result
        (λ name. name ≡ default_name source.entry.text.now source.entry.tokens.now default) }
{
    match default {
        Default::Named(at) => owned(alloc, source.text_at(at)),
        Default::Expression | Default::Unnamed(_) => Text::new(alloc, DEFAULT_NAME),
    }
}

fn default_export(alloc: Global, source: Source, at: usize) -> Result<Export, NoMemory>
    requires { at < 2 ^ 32 }
    ensures { IfOk result
        (λ export. export ≡ default_export source.entry.text.now source.entry.tokens.now at) }
{
    let default = default_at(source, at + 2);
    Ok(Export {
        name: Text::new(alloc, "default")?,
        from: ExportFrom::Local(default_name(alloc, source, default)?),
    })
}

/// A name that a declaration declares and exports.
fn own_export(alloc: Global, name: &[u8]) -> Result<Export, NoMemory>
    ensures { IfOk result (λ export. export ≡ own_export name.now) }
{
    Ok(Export {
        name: owned(alloc, name)?,
        from: ExportFrom::Local(owned(alloc, name)?),
    })
}

/// A name of the module that an item names, or without one of this module.
fn specifier_from(item: Option<u32>, name: Text) -> ExportFrom
    ensures { result ≡ specifier_from item name }
{
    match item {
        Some(item) => ExportFrom::Name(item, name),
        None => ExportFrom::Local(name),
    }
}

fn specifier_export(
    alloc: Global,
    text: &[u8],
    item: Option<u32>,
    part: &[Token],
) -> Result<Export, NoMemory>
    ensures { IfOk result (λ export. export ≡ specifier_export text.now item part.now) }
{
    Ok(Export {
        name: owned(alloc, right_name(text, part))?,
        from: specifier_from(item, owned(alloc, left_name(text, part))?),
    })
}

/// The exports of the specifiers in the braces at a token.
fn names_exports(
    alloc: Global,
    source: Source,
    item: Option<u32>,
    at: usize,
) -> Result<Seq<Export>, NoMemory>
    requires { at < 2 ^ 33 }
    ensures { IfOk result
        (λ exports. exports ≡ names_exports source.entry.text.now source.entry.tokens.now item at) }
{
    let parts = source.specifiers(alloc, at)?;
    let mut exports = Seq::new(alloc);
    for part in &parts {
        exports.push(specifier_export(alloc, source.text, item, part)?)?;
    }
    Ok(exports)
}

/// The names of declarators. No legal module exports more names than its text has bytes: such a text is refused before
/// its names are made, since declarations that run into each other would give the square of its length.
fn variables_exports(
    alloc: Global,
    source: Source,
    room: usize,
    at: usize,
) -> Result<Seq<Export>, NoMemory>
    ensures { IfOk result
        (λ exports. exports ≡ variables_exports source.entry.text.now source.entry.tokens.now at) }
{
    let names = source.declared_names(alloc, at)?;
    if names.len() > room {
        return Err(AllocError);
    }
    let mut exports = Seq::new(alloc);
    for name in &names {
        exports.push(own_export(alloc, name)?)?;
    }
    Ok(exports)
}

fn form_exports(
    alloc: Global,
    source: Source,
    item: u32,
    room: usize,
    at: usize,
    form: Form,
) -> Result<Seq<Export>, NoMemory>
    requires { at < 2 ^ 32 }
    ensures { IfOk result
        (λ exports. exports ≡ form_exports source.entry.text.now source.entry.tokens.now item at form) }
{
    match form.shape {
        Shape::SpaceExport => one(alloc, space_export(alloc, source, item, at + 3)?),
        Shape::NamesFromExport => names_exports(alloc, source, Some(item), at + 1),
        Shape::NamesExport => names_exports(alloc, source, None, at + 1),
        Shape::DefaultExport => one(alloc, default_export(alloc, source, at)?),
        Shape::VarExport | Shape::LetExport | Shape::ConstExport => {
            variables_exports(alloc, source, room, at + 2)
        }
        Shape::FunctionExport
        | Shape::GeneratorExport
        | Shape::AsyncFunctionExport
        | Shape::AsyncGeneratorExport
        | Shape::ClassExport => {
            let name = source.text_at(form.parts.saturating_sub(1));
            one(alloc, own_export(alloc, name)?)
        }
        _ => Ok(Seq::new(alloc)),
    }
}

/// What stands at a token exports, where there is room for so many names of variables.
#[tactic(auto, unfolding(crate::specs::Exports::exports_by))]
pub(crate) fn exports_by(
    alloc: Global,
    source: Source,
    item: u32,
    room: usize,
    at: usize,
    standing: Standing,
) -> Result<Seq<Export>, NoMemory>
    requires { at < 2 ^ 32 }
    ensures { IfOk result
        (λ exports. exports ≡ exports_by source.entry.text.now source.entry.tokens.now item at standing) }
{
    match standing {
        Standing::Declaration(form) => form_exports(alloc, source, item, room, at, form),
        _ => Ok(Seq::new(alloc)),
    }
}
