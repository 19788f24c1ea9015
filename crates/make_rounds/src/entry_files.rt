//! The files of entries, and what is told of their requests that name none.
ghost use Rattle.std.specs.Prelude.{◌≡◌, ◌<◌, ◌++◌, length, map, flat_map, IfOk, OnOk};
ghost use Rattle.std.specs.List.{AllByRecursion};
ghost use Rattle.module_build.specs.Answers.{file_named};
ghost use Rattle.outside.specs.Cause.{HasCause};
ghost use Rattle.outside.specs.Tree.{Told};
ghost use Rattle.resolve_path.specs.Resolves.{KeepsManifests};
ghost use Rattle.make_rounds.specs.Entries.{spot_place};
ghost use Rattle.make_rounds.specs.inner.Answered.{FindsEntries, answer_fault, answer_faults, named_files};

use crate::asking::ask_entries;
use crate::entry_answer::EntryAnswer;
use fault_place::{Fault, Place, Spot};
use graph_types::Config;
use module_build::refusal;
use outside::{OutsideEnd, TreeReader};
use pack_util::{FileId, NoMemory, Seq, Text, add_some};
use resolve_path::{ManifestCache, Resolution};
use std::alloc::Global;
use tree_listing::Listing;

/// The files of each entry, and the faults of all.
#[derive(Drop)]
pub(crate) struct Entries {
    pub(crate) files: Vec<Seq<FileId>>,
    pub(crate) faults: Vec<Fault>,
}

fn file_named(answer: &Resolution) -> Option<FileId>
    ensures { result ≡ file_named answer.now }
{
    match answer {
        Resolution::File(file) => Some(*file),
        Resolution::Unresolved
        | Resolution::NotExported
        | Resolution::BadManifest(_)
        | Resolution::BadTarget(_) => None,
    }
}

fn named_files(alloc: Global, answers: &[EntryAnswer]) -> Result<Vec<FileId>, NoMemory>
    ensures { IfOk result (λ files. files.items ≡ named_files answers.now) }
{
    let mut files = Vec::new(alloc);
    for one in answers {
        add_some(&mut files, file_named(&one.answer))?;
    }
    Ok(files)
}

/// The files of each entry.
fn all_files(alloc: Global, all: &[Seq<EntryAnswer>]) -> Result<Vec<Seq<FileId>>, NoMemory>
    ensures { IfOk result (λ files. files.items ≡ map named_files all.now) }
{
    let mut files = Vec::new(alloc);
    for answers in all {
        files.push(Seq::from_vec(named_files(alloc, answers.as_slice())?))?;
    }
    Ok(files)
}

/// The place of a spot in the configuration at a path.
fn spot_place(alloc: Global, path: &str, spot: Spot) -> Result<Place, NoMemory>
    ensures { IfOk result (λ place. place ≡ spot_place path.now spot) }
{
    Ok(Place {
        path: Text::new(alloc, path)?,
        offset: spot.offset,
        line: spot.line,
        column: spot.column,
    })
}

fn answer_fault(alloc: Global, path: &str, one: &EntryAnswer) -> Result<Option<Fault>, NoMemory>
    ensures { IfOk result (λ fault. fault ≡ answer_fault path.now one.now) }
{
    let place = spot_place(alloc, path, one.file.at)?;
    refusal(place, &one.file.request, &one.answer)
}

fn add_faults(
    alloc: Global,
    path: &str,
    faults: &mut Vec<Fault>,
    answers: &[EntryAnswer],
) -> Result<(), NoMemory>
    ensures { OnOk result (faults.new.items ≡ faults.old.items ++ answer_faults path.now answers.now) }
{
    for one in answers {
        add_some(faults, answer_fault(alloc, path, one)?)?;
    }
    Ok(())
}

/// The faults of all entries, told of the configuration at a path.
fn all_faults(alloc: Global, path: &str, all: &[Seq<EntryAnswer>]) -> Result<Vec<Fault>, NoMemory>
    ensures { IfOk result (λ faults. faults.items ≡ flat_map (answer_faults path.now) all.now) }
{
    let mut faults = Vec::new(alloc);
    for answers in all {
        add_faults(alloc, path, &mut faults, answers.as_slice())?;
    }
    Ok(faults)
}

/// The files and the faults of the entries of a configuration at a path.
pub(crate) fn find_entries<R: TreeReader>(
    alloc: Global,
    reader: &mut R,
    listing: &Listing,
    config: &Config,
    config_path: &str,
    cache: &mut ManifestCache,
) -> Result<Entries, OutsideEnd>
    ensures follows { R.follows reader.old reader.new }
    ensures cause { HasCause (R.view reader.old).faults (R.view reader.new).faults result }
    ensures count { IfOk result (λ found. length found.files.items ≡ length config.now.entries) }
    ensures within { IfOk result (λ found. AllByRecursion (AllByRecursion (λ file. file.0 < length listing.now.files)) found.files.items) }
    ensures keeps { Told (R.view reader.old).tree (λ tree. KeepsManifests tree listing.now cache.old cache.new (R.view reader.old) (R.view reader.new)) }
    ensures finds { Told (R.view reader.old).tree (λ tree. FindsEntries tree listing.now config.now config_path.now cache.old result) }
{
    let all = ask_entries(alloc, reader, listing, config, cache)?;
    Ok(Entries {
        files: all_files(alloc, &all)?,
        faults: all_faults(alloc, config_path, &all)?,
    })
}
