//! What is told of a request that names no file.
ghost use Rattle.std.specs.Prelude.{◌≡◌, ◌≤◌, length, IfOk, Option};
ghost use Rattle.module_build.specs.Answers.{is_left, is_missing, refusal, request_fault, request_note};
ghost use Rattle.graph_types.specs.Whole.{is_require};

use crate::asked::Asked;
use fault_place::{Fault, FaultKind, Place, Places};
use graph_types::{ItemKind, Note, NoteKind};
use pack_util::{NoMemory, Text};
use resolve_path::Resolution;
use std::alloc::Global;

fn is_require(kind: ItemKind) -> bool
    ensures { result ≡ is_require kind }
{
    match kind {
        ItemKind::Require => true,
        ItemKind::Import | ItemKind::ExportFrom | ItemKind::Lazy | ItemKind::Eager => false,
    }
}

fn is_missing(answer: &Resolution) -> bool
    ensures { result ≡ is_missing answer.now }
{
    match answer {
        Resolution::Unresolved | Resolution::NotExported => true,
        Resolution::File(_) | Resolution::BadManifest(_) | Resolution::BadTarget(_) => false,
    }
}

fn is_left(asked: &Asked) -> bool
    ensures { result ≡ is_left asked.now }
{
    is_require(asked.item.kind) && is_missing(&asked.answer)
}

fn fault(place: Place, kind: FaultKind, detail: &Text) -> Result<Option<Fault>, NoMemory>
    ensures { IfOk result (λ fault. fault ≡ Option.Some (record { place = place; kind = kind; detail = detail.now })) }
{
    Ok(Some(Fault {
        place,
        kind,
        detail: detail.clone()?,
    }))
}

/// The fault of a request at a place, where its answer is none.
pub fn refusal(place: Place, request: &Text, answer: &Resolution) -> Result<Option<Fault>, NoMemory>
    ensures { IfOk result (λ fault. fault ≡ refusal place request.now answer.now) }
{
    match answer {
        Resolution::File(_) => Ok(None),
        Resolution::Unresolved => fault(place, FaultKind::Unresolved, request),
        Resolution::NotExported => fault(place, FaultKind::NotExported, request),
        Resolution::BadManifest(path) => fault(place, FaultKind::BadManifest, path),
        Resolution::BadTarget(path) => fault(place, FaultKind::BadTarget, path),
    }
}

/// The fault of an item in the text at a path.
pub(crate) fn request_fault(
    alloc: Global,
    path: &str,
    places: &mut Places<'_>,
    asked: &Asked,
) -> Result<Option<Fault>, NoMemory>
    requires { asked.now.item.at ≤ length places.old }
    ensures fault { IfOk result (λ fault. fault ≡ request_fault path.now places.old asked.now) }
    ensures text { places.new ≡ places.old }
{
    if is_left(asked) {
        return Ok(None);
    }
    if let Resolution::File(_) = asked.answer {
        return Ok(None);
    }
    let place = places.place(alloc, path, u64::from(asked.item.at))?;
    refusal(place, &asked.item.request, &asked.answer)
}

/// The note of an item.
pub(crate) fn request_note(asked: &Asked) -> Result<Option<Note>, NoMemory>
    ensures { IfOk result (λ note. note ≡ request_note asked.now) }
{
    if !is_left(asked) {
        return Ok(None);
    }
    Ok(Some(Note {
        at: asked.item.at,
        kind: NoteKind::N1,
        detail: asked.item.request.clone()?,
    }))
}
