//! What `splitChunks` and each of its cache groups may say.
ghost use Rattle.std.specs.Prelude.{◌≡◌, ◌++◌, map, option_and_then};
ghost use Rattle.std.specs.Option.{option_copied};
ghost use Rattle.pack_config.specs.Splits.{limit_keys, limits_of, limits_rule, select_in};
ghost use Rattle.pack_config.specs.Values.{object_with};
ghost use Rattle.pack_config.specs.inner.Found.{after};

use crate::found::Found;
use crate::member::value_at;
use crate::value::{object_with_own, one_of, whole};
use graph_types::Select;
use json_order::JsonTree;

/// What is said of a group, each where it is there.
#[derive(Clone, Copy)]
pub(crate) struct Limits {
    pub(crate) select: Option<Select>,
    pub(crate) min_size: Option<u32>,
    pub(crate) min_chunks: Option<u32>,
    pub(crate) max_async: Option<u32>,
    pub(crate) max_initial: Option<u32>,
    pub(crate) threshold: Option<u32>,
}

/// An object that may have limits, and these keys.
pub(crate) fn limited_object(found: &mut Found, tree: &JsonTree, own: &[&str])
    ensures { found.new ≡ after found.old (object_with (limit_keys ++ map (λ key. key.now) own.now) tree.now) }
{
    let shared = [
        "chunks",
        "minSize",
        "minChunks",
        "maxAsyncRequests",
        "maxInitialRequests",
        "enforceSizeThreshold",
        "name",
    ];
    object_with_own(found, tree, &shared, own)
}

#[tactic(auto, using(crate::proofs::After::after_more))]
pub(crate) fn read_limits(found: &mut Found, parent: Option<&JsonTree>) -> Limits
    ensures faults { found.new ≡ after found.old (limits_rule (option_copied parent.entry)) }
    ensures value { result ≡ limits_of (option_copied parent.entry) }
{
    Limits {
        select: select(one_of(
            found,
            value_at("chunks", parent),
            &["async", "initial", "all"],
        )),
        min_size: whole(found, value_at("minSize", parent), 0, u32::MAX),
        min_chunks: whole(found, value_at("minChunks", parent), 1, u32::MAX),
        max_async: whole(found, value_at("maxAsyncRequests", parent), 1, u32::MAX),
        max_initial: whole(found, value_at("maxInitialRequests", parent), 1, u32::MAX),
        threshold: whole(found, value_at("enforceSizeThreshold", parent), 0, u32::MAX),
    }
}

fn select(text: Option<&str>) -> Option<Select>
    ensures { result ≡ option_and_then select_in (option_copied text.entry) }
{
    match text? {
        "async" => Some(Select::Async),
        "initial" => Some(Select::Initial),
        "all" => Some(Select::All),
        _ => None,
    }
}

/// What holds for a group that says nothing itself.
#[derive(Clone, Copy)]
pub(crate) struct Base {
    pub(crate) select: Select,
    pub(crate) min_size: u32,
    pub(crate) min_chunks: u32,
    pub(crate) max_async: Option<u32>,
    pub(crate) max_initial: Option<u32>,
    pub(crate) threshold: Option<u32>,
}

impl Base {
    ghost use Rattle.pack_config.specs.Splits.{base_of, enforced};

    /// The value of `splitChunks`, else the default.
    pub(crate) fn new(limits: Limits) -> Base
        ensures { result ≡ base_of limits }
    {
        Base {
            select: limits.select.unwrap_or(Select::Async),
            min_size: limits.min_size.unwrap_or(20_000),
            min_chunks: limits.min_chunks.unwrap_or(1),
            max_async: Some(limits.max_async.unwrap_or(30)),
            max_initial: Some(limits.max_initial.unwrap_or(30)),
            threshold: Some(limits.threshold.unwrap_or(50_000)),
        }
    }

    /// The same for a group that is enforced: no limit but its own.
    pub(crate) fn enforced(self) -> Base
        ensures { result ≡ enforced self }
    {
        Base {
            select: self.select,
            min_size: 0,
            min_chunks: 1,
            max_async: None,
            max_initial: None,
            threshold: None,
        }
    }
}
