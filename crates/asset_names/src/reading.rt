ghost use Rattle.std.specs.Prelude.{◌≡◌, ◌≤◌, IfOk, string_bytes};
ghost use Rattle.std.specs.List.{flat_map, list_any, slice_split};
ghost use Rattle.asset_names.specs.Answers.{AnswersTemplate};
ghost use Rattle.asset_names.specs.inner.Given.{GivesParts};
ghost use Rattle.asset_names.specs.Reading.{is_close, is_open, read_pieces, with_all, with_fixed, with_marked};
ghost use Rattle.asset_names.specs.Template.{letter_for};

use crate::TemplateEnd;
use crate::mark::read_mark;
use graph_types::{Part, Template};
use pack_util::{NoMemory, Seq, Text};
use path_text::is_normal;
use std::alloc::Global;

/// The template that a text is. `digits` is the length of a hash whose mark names none.
pub fn read_template(alloc: Global, text: &str, digits: u32) -> Result<Template, TemplateEnd>
    requires at_least_one { 1 ≤ digits }
    requires at_most_all { digits ≤ 64 }
    ensures { AnswersTemplate digits text.now result }
{
    let parts = read_parts(alloc, text, digits)?;
    if !is_normal(with_letters(alloc, &parts)?.as_str()) {
        return Err(TemplateEnd::BadTemplate);
    }
    Ok(Template {
        parts: Seq::from_vec(parts),
    })
}

/// The text with a letter in place of each mark.
fn with_letters(alloc: Global, parts: &[Part]) -> Result<String, NoMemory>
    ensures { IfOk result (λ text. string_bytes text ≡ flat_map letter_for parts.now) }
{
    let mut text = String::new(alloc);
    for part in parts {
        text.push_str(letter(part))?;
    }
    Ok(text)
}

fn letter(part: &Part) -> &str
    ensures { result.now ≡ letter_for part.now }
{
    match part {
        Part::Fixed(text) => text.get(),
        _ => "a",
    }
}

fn read_parts(alloc: Global, text: &str, digits: u32) -> Result<Vec<Part>, TemplateEnd>
    ensures { GivesParts (read_pieces digits (slice_split is_open text.now)) (λ parts. parts.items) result }
{
    let mut parts = Vec::new(alloc);
    let Some((fixed, marked)) = text.split_once('[') else {
        push_fixed(alloc, &mut parts, text)?;
        return Ok(parts);
    };
    push_fixed(alloc, &mut parts, fixed)?;
    push_all(alloc, &mut parts, marked, digits)?;
    Ok(parts)
}

/// Reads what stands behind the first `[`.
fn push_all(
    alloc: Global,
    parts: &mut Vec<Part>,
    text: &str,
    digits: u32,
) -> Result<(), TemplateEnd>
    ensures { GivesParts (with_all digits parts.old.items (slice_split is_open text.now)) (λ _. parts.new.items) result }
{
    for marked in text.split('[') {
        push_marked(alloc, parts, marked, digits)?;
    }
    Ok(())
}

/// Reads what stands between one `[` and the next.
fn push_marked(
    alloc: Global,
    parts: &mut Vec<Part>,
    marked: &str,
    digits: u32,
) -> Result<(), TemplateEnd>
    ensures { GivesParts (with_marked digits parts.old.items marked.now) (λ _. parts.new.items) result }
{
    let (word, fixed) = marked.split_once(']').ok_or(TemplateEnd::BadTemplate)?;
    parts.push(read_mark(word, digits).ok_or(TemplateEnd::BadTemplate)?)?;
    push_fixed(alloc, parts, fixed)
}

fn push_fixed(alloc: Global, parts: &mut Vec<Part>, fixed: &str) -> Result<(), TemplateEnd>
    ensures { GivesParts (with_fixed parts.old.items fixed.now) (λ _. parts.new.items) result }
{
    if has_close(fixed) {
        return Err(TemplateEnd::BadTemplate);
    }
    if !fixed.is_empty() {
        parts.push(Part::Fixed(Text::new(alloc, fixed)?))?;
    }
    Ok(())
}

fn has_close(text: &str) -> bool
    ensures { result ≡ list_any is_close text.now }
{
    text.bytes().any(|byte| byte == b']')
}
