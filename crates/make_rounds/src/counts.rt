//! What the modules of a build count.
ghost use Rattle.std.specs.Prelude.{◌≡◌, ℕ, ◌<◌, ◌≤◌, [], MatchOption, IfErr, IsOk, count_by};
ghost use Rattle.std.specs.List.{AllByRecursion};
ghost use Rattle.fault_place.specs.Limit.{number_of};
ghost use Rattle.fault_place.specs.declared.limit.Limit.{Limit as Bound};
ghost use Rattle.graph_types.specs.Edges.{HasFewItems, is_lazy};
ghost use Rattle.make_rounds.specs.Counts.{counted};
ghost use Rattle.make_rounds.specs.inner.Counting.{IsAllowed, IsExceeded, counts_of, with_file, with_record};

use fault_place::Limit;
use graph_types::{Item, ItemKind, ModRecord};
use pack_util::MAX_TEXT;

/// What limits count of the modules so far.
#[derive(Clone, Copy)]
pub(crate) struct Counts {
    pub(crate) modules: u64,
    pub(crate) text_bytes: u64,
    pub(crate) items: u64,
    pub(crate) blocks: u64,
}

fn is_lazy(kind: ItemKind) -> bool
    ensures { result ≡ is_lazy kind }
{
    match kind {
        ItemKind::Lazy => true,
        ItemKind::Import | ItemKind::ExportFrom | ItemKind::Require | ItemKind::Eager => false,
    }
}

fn lazy_items(items: &[Item]) -> u64
    ensures { result ≡ count_by (λ item. is_lazy item.kind) items.now }
{
    items.iter().filter(|item| is_lazy(item.kind)).count() as u64
}

impl Counts {
    /// Of no module.
    pub(crate) fn none() -> Counts
        ensures { result ≡ counts_of [] }
    {
        Counts {
            modules: 0,
            text_bytes: 0,
            items: 0,
            blocks: 0,
        }
    }

    /// With one file more, of so many bytes: one that is too long isn't read, and counts none.
    pub(crate) fn with_file(self, bytes: u64) -> Counts
        requires { IsAllowed self }
        ensures { result ≡ with_file self bytes }
    {
        let read = if bytes > MAX_TEXT { 0 } else { bytes };
        Counts {
            modules: self.modules + 1,
            text_bytes: self.text_bytes + read,
            items: self.items,
            blocks: self.blocks,
        }
    }

    /// With one record more.
    fn with_record(self, rec: &ModRecord) -> Counts
        requires allowed { IsAllowed self }
        requires few { HasFewItems rec.now }
        ensures { result ≡ with_record self rec.now }
    {
        let with_file = self.with_file(rec.size);
        let items = rec.items.as_slice();
        Counts {
            modules: with_file.modules,
            text_bytes: with_file.text_bytes,
            items: self.items + items.len() as u64,
            blocks: self.blocks + lazy_items(items),
        }
    }

    /// The first limit that is exceeded.
    pub(crate) fn exceeded(self) -> Option<Limit>
        ensures { MatchOption result (IsAllowed self) (IsExceeded self) }
    {
        if self.modules > Limit::Modules.number() {
            return Some(Limit::Modules);
        }
        if self.text_bytes > Limit::TextBytes.number() {
            return Some(Limit::TextBytes);
        }
        if self.items > Limit::Items.number() {
            return Some(Limit::Items);
        }
        if self.blocks > Limit::Blocks.number() {
            return Some(Limit::Blocks);
        }
        None
    }
}

/// Whether records keep within each limit, or else one that they exceed.
pub(crate) fn check_limits(records: &[ModRecord]) -> Result<(), Limit>
    requires { AllByRecursion HasFewItems records.now }
    ensures within { IsOk result → (limit : Bound) → counted records.now limit ≤ number_of limit }
    ensures exceeded { IfErr result (λ limit. number_of limit < counted records.now limit) }
{
    let mut counts = Counts::none();
    for record in records {
        counts = counts.with_record(record);
        if let Some(limit) = counts.exceeded() {
            return Err(limit);
        }
    }
    Ok(())
}
