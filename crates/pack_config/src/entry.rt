//! The entries: the files from which a build starts.
ghost use Rattle.std.specs.Prelude.{◌≡◌, ◌++◌, map, filter_map, flat_map, option_to_list, IfOk, OnOk};
ghost use Rattle.std.specs.Option.{option_copied};
ghost use Rattle.pack_config.specs.Entries.{default_entry_files, empty_list, entries_of, entry_of, entry_rule, file_of, import_files, files_rule, main_entry, named_rule};
ghost use Rattle.pack_config.specs.Values.{any_text, where_given};
ghost use Rattle.pack_config.specs.inner.Found.{after};

use crate::ConfigKind;
use crate::found::Found;
use crate::member::{members_of, value_at};
use crate::place::{FIRST, Places};
use crate::value::{object, text};
use graph_types::{EntryFile, EntrySpec};
use json_order::{JsonNode, JsonPair, JsonTree};
use pack_util::{NoMemory, Seq, Text};
use path_text::is_normal;
use std::alloc::Global;

/// The entries that a value names, else the default.
#[tactic(auto, using(crate::proofs::After::after_more))]
pub(crate) fn entries(
    alloc: Global,
    found: &mut Found,
    places: &Places<'_>,
    value: Option<&JsonTree>,
) -> Result<Seq<EntrySpec>, NoMemory>
    ensures faults { OnOk result (found.new ≡ after found.old (where_given entry_rule (option_copied value.entry))) }
    ensures value { IfOk result (λ all. all ≡ entries_of places.now (option_copied value.entry)) }
{
    let Some(tree) = value else {
        return default_entries(alloc)
    };
    match &tree.node {
        JsonNode::Object(pairs) => named_entries(alloc, found, places, tree, pairs.as_slice()),
        _ => {
            let files = files(alloc, found, places, tree)?;
            one_entry(alloc, files)
        }
    }
}

fn default_entries(alloc: Global) -> Result<Seq<EntrySpec>, NoMemory>
    ensures { IfOk result (λ all. all ≡ main_entry default_entry_files) }
{
    let mut files = Seq::new(alloc);
    files.push(EntryFile {
        request: Text::new(alloc, "./src/index.js")?,
        at: FIRST,
    })?;
    one_entry(alloc, files)
}

fn one_entry(alloc: Global, files: Seq<EntryFile>) -> Result<Seq<EntrySpec>, NoMemory>
    ensures { IfOk result (λ all. all ≡ main_entry files) }
{
    let mut entries = Seq::new(alloc);
    entries.push(EntrySpec {
        name: Text::new(alloc, "main")?,
        files,
    })?;
    Ok(entries)
}

#[tactic(auto, using(crate::proofs::After::after_more, crate::proofs::After::each_all))]
fn named_entries(
    alloc: Global,
    found: &mut Found,
    places: &Places<'_>,
    tree: &JsonTree,
    pairs: &[JsonPair],
) -> Result<Seq<EntrySpec>, NoMemory>
    ensures faults { OnOk result (found.new ≡ after found.old (empty_list pairs.now tree.now ++ flat_map named_rule pairs.now)) }
    ensures value { IfOk result (λ all. all ≡ map (entry_of places.now) pairs.now) }
{
    if pairs.is_empty() {
        found.out_of_range(tree);
    }
    let mut entries = Vec::new(alloc);
    for pair in pairs {
        entries.push(named_entry(alloc, found, places, pair)?)?;
    }
    Ok(Seq::from_vec(entries))
}

#[tactic(auto, using(crate::proofs::After::after_more))]
fn named_entry(
    alloc: Global,
    found: &mut Found,
    places: &Places<'_>,
    pair: &JsonPair,
) -> Result<EntrySpec, NoMemory>
    ensures faults { OnOk result (found.new ≡ after found.old (named_rule pair.now)) }
    ensures value { IfOk result (λ entry. entry ≡ entry_of places.now pair.now) }
{
    if !is_normal(pair.key.get()) {
        found.note(pair.key_at, ConfigKind::OutOfRange);
    }
    if let JsonNode::Object(_) = &pair.value.node {
        object(found, &pair.value, &["import"]);
    }
    let import = value_at("import", Some(&pair.value)).unwrap_or(&pair.value);
    Ok(EntrySpec {
        name: pair.key.clone()?,
        files: files(alloc, found, places, import)?,
    })
}

/// The files that a text or a list of texts names.
fn files(
    alloc: Global,
    found: &mut Found,
    places: &Places<'_>,
    tree: &JsonTree,
) -> Result<Seq<EntryFile>, NoMemory>
    ensures faults { OnOk result (found.new ≡ after found.old (files_rule tree.now)) }
    ensures value { IfOk result (λ all. all ≡ import_files places.now tree.now) }
{
    match &tree.node {
        JsonNode::List(items) => listed_files(alloc, found, places, tree, items.as_slice()),
        _ => {
            let mut files = Vec::new(alloc);
            push_file(alloc, found, places, &mut files, tree)?;
            Ok(Seq::from_vec(files))
        }
    }
}

#[tactic(auto, using(crate::proofs::After::after_more, crate::proofs::After::each_all))]
fn listed_files(
    alloc: Global,
    found: &mut Found,
    places: &Places<'_>,
    tree: &JsonTree,
    items: &[JsonTree],
) -> Result<Seq<EntryFile>, NoMemory>
    ensures faults { OnOk result (found.new ≡ after found.old (empty_list items.now tree.now ++ flat_map any_text items.now)) }
    ensures value { IfOk result (λ all. all ≡ filter_map (file_of places.now) items.now) }
{
    if items.is_empty() {
        found.out_of_range(tree);
    }
    let mut files = Vec::new(alloc);
    for item in items {
        push_file(alloc, found, places, &mut files, item)?;
    }
    Ok(Seq::from_vec(files))
}

fn push_file(
    alloc: Global,
    found: &mut Found,
    places: &Places<'_>,
    files: &mut Vec<EntryFile>,
    tree: &JsonTree,
) -> Result<(), NoMemory>
    ensures faults { OnOk result (found.new ≡ after found.old (any_text tree.now)) }
    ensures value { OnOk result (files.new.items ≡ files.old.items ++ option_to_list (file_of places.now tree.now)) }
{
    if let Some(request) = text(found, Some(tree)) {
        files.push(EntryFile {
            request: Text::new(alloc, request)?,
            at: places.spot(tree.at),
        })?;
    }
    Ok(())
}
