ghost use Rattle.std.specs.Prelude.{◌≡◌, map, IfOk};
ghost use Rattle.std.specs.List.{list_any, slice_split};
ghost use Rattle.pkg_exports.specs.Keys.{is_star};
ghost use Rattle.pkg_exports.specs.Targets.{filled, is_allowed, is_forbidden, text_outcome};

use crate::outcome::Outcome;
use crate::segment::has_refused_segment;
use pack_util::{MAX_TEXT, NoMemory, Text};
use std::alloc::{AllocError, Global};

fn has_forbidden(text: &str) -> bool
    ensures { result ≡ list_any is_forbidden text.now }
{
    text.bytes().any(|byte| byte == b'%' || byte == b'\\')
}

fn is_allowed(text: &str) -> bool
    ensures { result ≡ is_allowed text.now }
{
    match text.strip_prefix("./") {
        Some(rest) => !has_forbidden(text) && !has_refused_segment(rest),
        None => false,
    }
}

fn between_stars(alloc: Global, text: &str) -> Result<Vec<&str>, NoMemory>
    ensures { IfOk result (λ pieces. map (λ piece. piece.now) pieces.items ≡ slice_split is_star text.now) }
{
    text.split('*').collect(alloc)
}

fn filled(alloc: Global, text: &str, star: &str) -> Result<Text, NoMemory>
    ensures { IfOk result (λ made. made ≡ filled star.now text.now) }
{
    let pieces = between_stars(alloc, text)?;
    Ok(Text::from_string(pieces.join(alloc, star)?))
}

/// Whether a text of many `*` would become longer than any text may be.
fn becomes_too_long(text: &str, star: &str) -> bool {
    let stars = text.bytes().filter(|byte| *byte == b'*').count() as u64;
    let kept = (text.len() as u64).saturating_sub(stars);
    kept.saturating_add(stars.saturating_mul(star.len() as u64)) > MAX_TEXT
}

/// What a text is as a target, where each `*` becomes `star`.
pub fn text_outcome(alloc: Global, text: &str, star: &str) -> Result<Outcome, NoMemory>
    ensures { IfOk result (λ outcome. outcome ≡ text_outcome star.now text.now) }
{
    if !is_allowed(text) {
        return Ok(Outcome::BadTarget);
    }
    // A manifest could ask for gigabytes.
    if becomes_too_long(text, star) {
        return Err(AllocError);
    }
    Ok(Outcome::Target(filled(alloc, text, star)?))
}
