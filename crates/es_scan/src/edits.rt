ghost use Rattle.std.specs.Prelude.{◌≡◌, ◌+◌, ◌<◌, ◌≤◌, ◌^◌, ◌∷◌, [], IfOk, length, if◌then◌else◌};
ghost use Rattle.es_scan.specs.Edits.{fixed, is_removed, default_edits, declared_edits, call_edit, edits_by, hashbang_edits};

use crate::default::{Default, default_at};
use crate::items::span_of;
use crate::list::one;
use form_shapes::{Form, Shape, Source, Standing};
use graph_types::{Edit, EditText};
use magic_comments::{Magic, begins, line_length};
use pack_util::{NoMemory, Seq, Span, Text};
use std::alloc::Global;

fn fixed(alloc: Global, span: Span, put: &str) -> Result<Edit, NoMemory>
    ensures { IfOk result (λ edit. edit ≡ fixed span put.now) }
{
    Ok(Edit {
        span,
        put: EditText::Fixed(Text::new(alloc, put)?),
    })
}

/// Whether the whole declaration goes out of the text; else only its first words do.
fn is_removed(shape: Shape) -> bool
    ensures { result ≡ is_removed shape }
{
    matches!(
        shape,
        Shape::BareImport
            | Shape::DefaultImport
            | Shape::SpaceImport
            | Shape::NamesImport
            | Shape::DefaultSpaceImport
            | Shape::DefaultNamesImport
            | Shape::StarExport
            | Shape::SpaceExport
            | Shape::NamesFromExport
            | Shape::NamesExport
    )
}

fn default_edits(alloc: Global, source: Source, at: usize) -> Result<Seq<Edit>, NoMemory>
    requires { at < 2 ^ 32 }
    ensures { IfOk result
        (λ edits. edits ≡ default_edits source.entry.text.now source.entry.tokens.now at) }
{
    let words = span_of(source, at, at + 2);
    let mut edits = Seq::new(alloc);
    match default_at(source, at + 2) {
        Default::Expression => edits.push(fixed(alloc, words, "const __cp_default=")?)?,
        Default::Named(_) => edits.push(fixed(alloc, words, "")?)?,
        Default::Unnamed(last) => {
            let behind = source.end_at(last);
            let place = Span {
                start: behind,
                end: behind,
            };
            edits.push(fixed(alloc, words, "")?)?;
            edits.push(fixed(alloc, place, " __cp_default")?)?;
        }
    }
    Ok(edits)
}

fn declared_edits(
    alloc: Global,
    source: Source,
    at: usize,
    form: Form,
) -> Result<Seq<Edit>, NoMemory>
    requires { at < 2 ^ 32 }
    ensures { IfOk result
        (λ edits. edits ≡ declared_edits source.entry.text.now source.entry.tokens.now at form) }
{
    if is_removed(form.shape) {
        return one(alloc, fixed(alloc, span_of(source, at, form.end), ";")?);
    }
    match form.shape {
        Shape::DefaultExport => default_edits(alloc, source, at),
        _ => one(alloc, fixed(alloc, span_of(source, at, at + 1), "")?),
    }
}

fn call_edit(
    alloc: Global,
    source: Source,
    item: u32,
    at: usize,
    form: Form,
) -> Result<Seq<Edit>, NoMemory>
    ensures { IfOk result (λ edits. edits ≡ call_edit source.entry.tokens.now item at form ∷ []) }
{
    let edit = Edit {
        span: span_of(source, at, form.end),
        put: EditText::Load(item),
    };
    one(alloc, edit)
}

/// What becomes of the text of what stands at a token.
#[tactic(auto, unfolding(crate::specs::Edits::edits_by))]
pub(crate) fn edits_by(
    alloc: Global,
    source: Source,
    item: u32,
    at: usize,
    standing: Standing,
    magic: &Magic,
) -> Result<Seq<Edit>, NoMemory>
    requires { at < 2 ^ 32 }
    ensures { IfOk result
        (λ edits. edits ≡ edits_by source.entry.text.now source.entry.tokens.now item at magic.now standing) }
{
    match standing {
        Standing::Declaration(form) => declared_edits(alloc, source, at, form),
        Standing::ImportCall(form) if !magic.ignored => call_edit(alloc, source, item, at, form),
        Standing::RequireCall(form) => call_edit(alloc, source, item, at, form),
        _ => Ok(Seq::new(alloc)),
    }
}

/// A `#!` at the start of a text becomes nothing, up to the line's end.
#[tactic(auto, unfolding(crate::specs::Edits::hashbang_edits))]
pub(crate) fn hashbang_edits(alloc: Global, text: &[u8]) -> Result<Seq<Edit>, NoMemory>
    requires { length text.now < 2 ^ 32 }
    ensures { IfOk result (λ edits. edits ≡ hashbang_edits text.now) }
{
    if !begins(text, "#!") {
        return Ok(Seq::new(alloc));
    }
    let line = Span {
        start: 0,
        end: line_length(text) as u32,
    };
    one(alloc, fixed(alloc, line, "")?)
}
