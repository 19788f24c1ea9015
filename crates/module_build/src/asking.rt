//! The answers to the requests of a module.
ghost use Rattle.std.specs.Prelude.{◌≡◌, length, map, IfOk};
ghost use Rattle.std.specs.List.{AllByRecursion};
ghost use Rattle.graph_types.specs.Whole.{is_require};
ghost use Rattle.outside.specs.Cause.{HasCause};
ghost use Rattle.outside.specs.Tree.{Told};
ghost use Rattle.path_text.specs.Path.{IsFolderPath};
ghost use Rattle.resolve_path.specs.Places.{HasFileWithin};
ghost use Rattle.resolve_path.specs.Resolves.{KeepsManifests};
ghost use Rattle.module_build.specs.Answers.{asks_as};
ghost use Rattle.module_build.specs.inner.Asks.{FindsAll};

use crate::asked::Asked;
use graph_types::{Config, Item, ItemKind};
use outside::{OutsideEnd, TreeReader};
use pack_util::NoMemory;
use resolve_path::{ManifestCache, RequestKind, Resolution, resolve};
use std::alloc::Global;
use tree_listing::Listing;

fn asks_as(kind: ItemKind) -> RequestKind
    ensures { result ≡ asks_as kind }
{
    match kind {
        ItemKind::Require => RequestKind::Require,
        ItemKind::Import | ItemKind::ExportFrom | ItemKind::Lazy | ItemKind::Eager => {
            RequestKind::Import
        }
    }
}

fn with_answer(item: &Item, answer: Resolution) -> Result<Asked, NoMemory>
    ensures { IfOk result (λ one. one ≡ record { item = item.now; answer = answer }) }
{
    Ok(Asked {
        item: item.clone()?,
        answer,
    })
}

/// Resolves the requests of the items of a module in a folder, in order.
pub(crate) fn ask_all<R: TreeReader>(
    alloc: Global,
    reader: &mut R,
    listing: &Listing,
    config: &Config,
    cache: &mut ManifestCache,
    folder: &str,
    items: &[Item],
) -> Result<Vec<Asked>, OutsideEnd>
    requires { IsFolderPath folder.now }
    ensures follows { R.follows reader.old reader.new }
    ensures cause { HasCause (R.view reader.old).faults (R.view reader.new).faults result }
    ensures items { IfOk result (λ asked. map (λ one. one.item) asked.items ≡ items.now) }
    ensures within { IfOk result (λ asked. AllByRecursion (λ one. HasFileWithin (length listing.now.files) one.answer) asked.items) }
    ensures keeps { Told (R.view reader.old).tree (λ tree. KeepsManifests tree listing.now cache.old cache.new (R.view reader.old) (R.view reader.new)) }
    ensures finds { Told (R.view reader.old).tree (λ tree. FindsAll tree listing.now config.now folder.now cache.old items.now result) }
{
    let mut asked = Vec::new(alloc);
    for item in items {
        let kind = asks_as(item.kind);
        let request = item.request.get();
        let answer = resolve(alloc, reader, listing, config, cache, folder, request, kind)?;
        asked.push(with_answer(item, answer)?)?;
    }
    Ok(asked)
}
