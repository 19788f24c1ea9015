//! A record with the answers to its requests.
ghost use Rattle.std.specs.Prelude.{◌≡◌, ◌≤◌, ◌++◌, length, map, filter_map, IfOk};
ghost use Rattle.std.specs.List.{AllByRecursion};
ghost use Rattle.fault_place.specs.Fault.{in_order};
ghost use Rattle.module_build.specs.Answers.{answered_item, file_named, request_fault, request_note};
ghost use Rattle.module_build.specs.Merged.{merged};
ghost use Rattle.module_build.specs.Record.{answered};

use crate::asked::Asked;
use crate::merging::merged;
use crate::refusing::{request_fault, request_note};
use fault_place::{Fault, Places, sort_faults};
use graph_types::{Item, ModRecord, Note};
use pack_util::{FileId, NoMemory, Seq, add_some};
use resolve_path::Resolution;
use std::alloc::Global;

fn file_named(answer: &Resolution) -> Option<FileId>
    ensures { result ≡ file_named answer.now }
{
    match answer {
        Resolution::File(file) => Some(*file),
        Resolution::Unresolved
        | Resolution::NotExported
        | Resolution::BadManifest(_)
        | Resolution::BadTarget(_) => None,
    }
}

fn answered_item(asked: Asked) -> Item
    ensures { result ≡ answered_item asked }
{
    let target = file_named(&asked.answer);
    let mut item = asked.item;
    item.target = target;
    item
}

fn answered_items(alloc: Global, asked: Vec<Asked>) -> Result<Vec<Item>, NoMemory>
    ensures { IfOk result (λ items. items.items ≡ map answered_item asked.items) }
{
    asked
        .into_iter()
        .map(|one| answered_item(one))
        .collect(alloc)
}

fn request_notes(alloc: Global, asked: &[Asked]) -> Result<Vec<Note>, NoMemory>
    ensures { IfOk result (λ notes. notes.items ≡ filter_map request_note asked.now) }
{
    let mut notes = Vec::new(alloc);
    for one in asked {
        add_some(&mut notes, request_note(one)?)?;
    }
    Ok(notes)
}

/// The faults that were there, and those of the requests.
fn with_request_faults(
    alloc: Global,
    path: &str,
    text: &[u8],
    faults: Seq<Fault>,
    asked: &[Asked],
) -> Result<Vec<Fault>, NoMemory>
    requires { AllByRecursion (λ one. one.item.at ≤ length text.now) asked.now }
    ensures { IfOk result (λ all. all.items ≡ faults ++ filter_map (request_fault path.now text.now) asked.now) }
{
    let mut places = Places::new(text);
    let mut all = faults.into_vec();
    for one in asked {
        add_some(&mut all, request_fault(alloc, path, &mut places, one)?)?;
    }
    Ok(all)
}

/// The record whose items have these answers.
#[tactic(auto, unfolding(crate::specs::Record::answered))]
pub(crate) fn answered(
    alloc: Global,
    mut rec: ModRecord,
    asked: Vec<Asked>,
) -> Result<ModRecord, NoMemory>
    requires { AllByRecursion (λ one. one.item.at ≤ length rec.text) asked.items }
    ensures { IfOk result (λ made. made ≡ answered rec asked.items) }
{
    let before = rec.faults;
    let mut faults = with_request_faults(alloc, rec.path.get(), rec.text.get(), before, &asked)?;
    sort_faults(alloc, &mut faults)?;
    let noted = request_notes(alloc, &asked)?;
    let notes = merged(alloc, rec.notes.as_slice(), &noted)?;
    rec.faults = Seq::from_vec(faults);
    rec.notes = Seq::from_vec(notes);
    rec.items = Seq::from_vec(answered_items(alloc, asked)?);
    Ok(rec)
}
