//! The answers to the requests of entries.
ghost use Rattle.std.specs.Prelude.{◌≡◌, length, IfOk};
ghost use Rattle.std.specs.List.{AllByRecursion};
ghost use Rattle.outside.specs.Cause.{HasCause};
ghost use Rattle.outside.specs.Tree.{Told};
ghost use Rattle.resolve_path.specs.Places.{HasFileWithin};
ghost use Rattle.resolve_path.specs.Resolves.{KeepsManifests};
ghost use Rattle.make_rounds.specs.inner.Answered.{FindsAnswers, FindsEntry};

use crate::entry_answer::EntryAnswer;
use graph_types::{Config, EntryFile};
use outside::{OutsideEnd, TreeReader};
use pack_util::{NoMemory, Seq};
use resolve_path::{ManifestCache, RequestKind, Resolution, resolve};
use std::alloc::Global;
use tree_listing::Listing;

fn with_answer(file: &EntryFile, answer: Resolution) -> Result<EntryAnswer, NoMemory>
    ensures { IfOk result (λ one. one ≡ record { file = file.now; answer = answer }) }
{
    Ok(EntryAnswer {
        file: file.clone()?,
        answer,
    })
}

/// Resolves the requests of the files of an entry in the root, in order.
fn ask_entry<R: TreeReader>(
    alloc: Global,
    reader: &mut R,
    listing: &Listing,
    config: &Config,
    cache: &mut ManifestCache,
    files: &[EntryFile],
) -> Result<Vec<EntryAnswer>, OutsideEnd>
    ensures follows { R.follows reader.old reader.new }
    ensures cause { HasCause (R.view reader.old).faults (R.view reader.new).faults result }
    ensures within { IfOk result (λ answers. AllByRecursion (λ one. HasFileWithin (length listing.now.files) one.answer) answers.items) }
    ensures keeps { Told (R.view reader.old).tree (λ tree. KeepsManifests tree listing.now cache.old cache.new (R.view reader.old) (R.view reader.new)) }
    ensures finds { Told (R.view reader.old).tree (λ tree. FindsEntry tree listing.now config.now cache.old files.now result) }
{
    let mut answers = Vec::new(alloc);
    for file in files {
        let request = file.request.get();
        let kind = RequestKind::Import;
        let answer = resolve(alloc, reader, listing, config, cache, "", request, kind)?;
        answers.push(with_answer(file, answer)?)?;
    }
    Ok(answers)
}

/// Resolves the requests of all entries of a configuration, in its order.
pub(crate) fn ask_entries<R: TreeReader>(
    alloc: Global,
    reader: &mut R,
    listing: &Listing,
    config: &Config,
    cache: &mut ManifestCache,
) -> Result<Vec<Seq<EntryAnswer>>, OutsideEnd>
    ensures follows { R.follows reader.old reader.new }
    ensures cause { HasCause (R.view reader.old).faults (R.view reader.new).faults result }
    ensures count { IfOk result (λ answers. length answers.items ≡ length config.now.entries) }
    ensures within { IfOk result (λ answers. AllByRecursion (AllByRecursion (λ one. HasFileWithin (length listing.now.files) one.answer)) answers.items) }
    ensures keeps { Told (R.view reader.old).tree (λ tree. KeepsManifests tree listing.now cache.old cache.new (R.view reader.old) (R.view reader.new)) }
    ensures finds { Told (R.view reader.old).tree (λ tree. FindsAnswers tree listing.now config.now cache.old result) }
{
    let mut all = Vec::new(alloc);
    for entry in config.entries.as_slice() {
        let files = entry.files.as_slice();
        let answers = ask_entry(alloc, reader, listing, config, cache, files)?;
        all.push(Seq::from_vec(answers))?;
    }
    Ok(all)
}
