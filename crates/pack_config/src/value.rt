//! One call for each kind of value that a key wants: it notes the faults of a value, and answers what the value is.
ghost use Rattle.std.specs.Prelude.{◌≡◌, ◌≤◌, ◌++◌, map, flat_map, filter_map, option_to_list, None, IsTrue, IfOk, OnOk, MatchOption};
ghost use Rattle.std.specs.Option.{option_copied};
ghost use Rattle.pack_config.specs.Values.{any_text, any_truth, each_of, is_listed, keys_in, object_with, one_of, only_false, signed, signed_value, text_of, text_value, any_texts, texts_value, truth_value, is_whole, unknown_key, where_given, whole, whole_in, whole_of, whole_value};
ghost use Rattle.pack_config.specs.inner.Found.{after};

use crate::ConfigKind;
use crate::found::Found;
use crate::member::{is_listed, items_of, number_of, pairs_of, text_of, truth_of};
use crate::number::{has_minus, is_whole, limit_of, magnitude_of, signed_by, within};
use json_order::{JsonPair, JsonTree};
use pack_util::{NoMemory, Seq, Text};
use std::alloc::Global;

pub(crate) fn text<'a>(found: &mut Found, value: Option<&'a JsonTree>) -> Option<&'a str>
    ensures faults { found.new ≡ after found.old (where_given any_text (option_copied value.entry)) }
    ensures value { option_copied result ≡ text_value (option_copied value.entry) }
{
    let tree = value?;
    let text = text_of(tree);
    if text.is_none() {
        found.wrong_type(tree);
    }
    text
}

/// One of some texts.
pub(crate) fn one_of<'a>(
    found: &mut Found,
    value: Option<&'a JsonTree>,
    allowed: &[&str],
) -> Option<&'a str>
    ensures faults { found.new ≡ after found.old (where_given (one_of (map (λ word. word.now) allowed.now)) (option_copied value.entry)) }
    ensures value { option_copied result ≡ text_value (option_copied value.entry) }
{
    let tree = value?;
    let text = text_of(tree);
    match text {
        Some(text) if !is_listed(allowed, text) => found.out_of_range(tree),
        Some(_) => {}
        None => found.wrong_type(tree),
    }
    text
}

pub(crate) fn truth(found: &mut Found, value: Option<&JsonTree>) -> Option<bool>
    ensures faults { found.new ≡ after found.old (where_given any_truth (option_copied value.entry)) }
    ensures value { result ≡ truth_value (option_copied value.entry) }
{
    let tree = value?;
    let truth = truth_of(tree);
    if truth.is_none() {
        found.wrong_type(tree);
    }
    truth
}

pub(crate) fn only_false(found: &mut Found, value: Option<&JsonTree>)
    ensures { found.new ≡ after found.old (where_given only_false (option_copied value.entry)) }
{
    let Some(tree) = value else { return };
    match truth_of(tree) {
        Some(false) => {}
        Some(true) => found.out_of_range(tree),
        None => found.wrong_type(tree),
    }
}

/// A whole number within bounds.
pub(crate) fn whole(found: &mut Found, value: Option<&JsonTree>, low: u32, high: u32) -> Option<u32>
    ensures faults { found.new ≡ after found.old (where_given (whole low high) (option_copied value.entry)) }
    ensures value { result ≡ whole_value low high (option_copied value.entry) }
{
    let tree = value?;
    let Some(word) = whole_word(tree) else {
        found.wrong_type(tree);
        return None;
    };
    let number = within(word, low, high);
    if number.is_none() {
        found.out_of_range(tree);
    }
    number
}

/// A whole number of 32 bits with a sign.
pub(crate) fn signed(found: &mut Found, value: Option<&JsonTree>) -> Option<i32>
    ensures faults { found.new ≡ after found.old (where_given signed (option_copied value.entry)) }
    ensures value { result ≡ signed_value (option_copied value.entry) }
{
    let tree = value?;
    let word = number_of(tree).unwrap_or("");
    let minus = has_minus(word);
    let digits = magnitude_of(word);
    if !is_whole(digits) {
        found.wrong_type(tree);
        return None;
    }
    let Some(magnitude) = within(digits, 0, limit_of(minus)) else {
        found.out_of_range(tree);
        return None;
    };
    Some(signed_by(minus, magnitude))
}

/// The texts of a list, else the default.
pub(crate) fn texts(
    alloc: Global,
    found: &mut Found,
    value: Option<&JsonTree>,
    defaults: &[&str],
) -> Result<Seq<Text>, NoMemory>
    ensures faults { OnOk result (found.new ≡ after found.old (where_given any_texts (option_copied value.entry))) }
    ensures value { IfOk result (λ all. all ≡ texts_value (map (λ word. word.now) defaults.now) (option_copied value.entry)) }
{
    let Some(tree) = value else {
        return all_of(alloc, defaults);
    };
    let Some(items) = items_of(tree) else {
        found.wrong_type(tree);
        return all_of(alloc, defaults);
    };
    listed_texts(alloc, found, items)
}

#[tactic(auto, using(crate::proofs::After::each_all))]
fn listed_texts(alloc: Global, found: &mut Found, items: &[JsonTree]) -> Result<Seq<Text>, NoMemory>
    ensures faults { OnOk result (found.new ≡ after found.old (flat_map any_text items.now)) }
    ensures value { IfOk result (λ all. all ≡ filter_map text_of items.now) }
{
    let mut texts = Vec::new(alloc);
    for item in items {
        push_text(alloc, found, &mut texts, item)?;
    }
    Ok(Seq::from_vec(texts))
}

fn push_text(
    alloc: Global,
    found: &mut Found,
    texts: &mut Vec<Text>,
    item: &JsonTree,
) -> Result<(), NoMemory>
    ensures faults { OnOk result (found.new ≡ after found.old (any_text item.now)) }
    ensures value { OnOk result (texts.new.items ≡ texts.old.items ++ option_to_list (text_of item.now)) }
{
    if let Some(text) = text(found, Some(item)) {
        texts.push(Text::new(alloc, text)?)?;
    }
    Ok(())
}

fn all_of(alloc: Global, words: &[&str]) -> Result<Seq<Text>, NoMemory>
    ensures { IfOk result (λ all. all ≡ map (λ word. word.now) words.now) }
{
    let mut texts = Vec::new(alloc);
    for word in words {
        texts.push(Text::new(alloc, word)?)?;
    }
    Ok(Seq::from_vec(texts))
}

/// An object that has no other keys than these.
pub(crate) fn object(found: &mut Found, tree: &JsonTree, keys: &[&str])
    ensures { found.new ≡ after found.old (object_with (map (λ key. key.now) keys.now) tree.now) }
{
    object_with_own(found, tree, keys, &[])
}

/// An object that has no other keys than those that several kinds share, and its own.
pub(crate) fn object_with_own(found: &mut Found, tree: &JsonTree, shared: &[&str], own: &[&str])
    ensures { found.new ≡ after found.old (object_with (map (λ key. key.now) shared.now ++ map (λ key. key.now) own.now) tree.now) }
{
    match pairs_of(tree) {
        Some(pairs) => note_unknown(found, pairs, shared, own),
        None => found.wrong_type(tree),
    }
}

#[tactic(auto, using(crate::proofs::After::each_all))]
fn note_unknown(found: &mut Found, pairs: &[JsonPair], shared: &[&str], own: &[&str])
    ensures { found.new ≡ after found.old (flat_map (unknown_key (map (λ key. key.now) shared.now ++ map (λ key. key.now) own.now)) pairs.now) }
{
    for pair in pairs {
        note_key(found, pair, shared, own);
    }
}

fn note_key(found: &mut Found, pair: &JsonPair, shared: &[&str], own: &[&str])
    ensures { found.new ≡ after found.old (unknown_key (map (λ key. key.now) shared.now ++ map (λ key. key.now) own.now) pair.now) }
{
    if !is_known(shared, own, pair.key.get()) {
        found.note(pair.key_at, ConfigKind::UnknownKey);
    }
}

#[tactic(auto, using(crate::proofs::Words::listed_join))]
fn is_known(shared: &[&str], own: &[&str], key: &str) -> bool
    ensures { result ≡ is_listed (map (λ key. key.now) shared.now ++ map (λ key. key.now) own.now) key.now }
{
    is_listed(shared, key) || is_listed(own, key)
}

/// The digits of a whole number.
fn whole_word(tree: &JsonTree) -> Option<&str>
    ensures { MatchOption result (whole_of tree.now ≡ None) (λ word. IsTrue (is_whole word.now) × (whole_of tree.now ≡ whole_in word.now)) }
{
    let word = number_of(tree)?;
    if is_whole(word) { Some(word) } else { None }
}
