//! What a JSON value is, and the values of its members.
ghost use Rattle.std.specs.Prelude.{◌≡◌, bytes_eq, find, map, option_map};
ghost use Rattle.std.specs.List.{list_any};
ghost use Rattle.std.specs.Option.{option_copied};
ghost use Rattle.pack_config.specs.Values.{is_listed, items_of, members_of, number_word, object_pairs, text_of, truth_of, value_at};

use json_order::{JsonNode, JsonPair, JsonTree};

pub(crate) fn truth_of(tree: &JsonTree) -> Option<bool>
    ensures { result ≡ truth_of tree.now }
{
    match &tree.node {
        JsonNode::Bool(truth) => Some(*truth),
        _ => None,
    }
}

pub(crate) fn number_of(tree: &JsonTree) -> Option<&str>
    ensures { option_copied result ≡ number_word tree.now }
{
    match &tree.node {
        JsonNode::Number(word) => Some(word.get()),
        _ => None,
    }
}

pub(crate) fn text_of(tree: &JsonTree) -> Option<&str>
    ensures { option_copied result ≡ text_of tree.now }
{
    match &tree.node {
        JsonNode::Str(text) => Some(text.get()),
        _ => None,
    }
}

pub(crate) fn items_of(tree: &JsonTree) -> Option<&[JsonTree]>
    ensures { option_copied result ≡ items_of tree.now }
{
    match &tree.node {
        JsonNode::List(items) => Some(items.as_slice()),
        _ => None,
    }
}

pub(crate) fn pairs_of(tree: &JsonTree) -> Option<&[JsonPair]>
    ensures { option_copied result ≡ object_pairs tree.now }
{
    match &tree.node {
        JsonNode::Object(pairs) => Some(pairs.as_slice()),
        _ => None,
    }
}

/// The members of an object, none of another value.
pub(crate) fn members_of(tree: &JsonTree) -> &[JsonPair]
    ensures { result.now ≡ members_of tree.now }
{
    match pairs_of(tree) {
        Some(pairs) => pairs,
        None => &[],
    }
}

/// The value of a member, where there is an object that has it.
pub(crate) fn value_at<'a>(key: &str, parent: Option<&'a JsonTree>) -> Option<&'a JsonTree>
    ensures { option_copied result ≡ value_at key.now (option_copied parent.entry) }
{
    match parent {
        Some(tree) => find_value(key, members_of(tree)),
        None => None,
    }
}

fn find_value<'a>(key: &str, pairs: &'a [JsonPair]) -> Option<&'a JsonTree>
    ensures { option_copied result ≡ option_map (λ pair. pair.value) (find (λ pair. bytes_eq pair.key key.now) pairs.now) }
{
    let pair = pairs.iter().find(|pair| pair.key.get() == key)?;
    Some(&pair.value)
}

pub(crate) fn has_key(pairs: &[JsonPair], key: &str) -> bool
    ensures { result ≡ list_any (λ pair. bytes_eq pair.key key.now) pairs.now }
{
    pairs.iter().any(|pair| pair.key.get() == key)
}

pub(crate) fn is_listed(keys: &[&str], key: &str) -> bool
    ensures { result ≡ is_listed (map (λ listed. listed.now) keys.now) key.now }
{
    has_word(keys, key)
}

fn has_word(words: &[&str], word: &str) -> bool
    ensures { result ≡ list_any (λ other. bytes_eq other.now word.now) words.now }
{
    words.iter().any(|other| *other == word)
}
