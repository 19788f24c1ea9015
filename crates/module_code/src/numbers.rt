ghost use Rattle.std.specs.Prelude.{◌≡◌, ℕ, ◌<◌, ◌^◌, length, map, vec_len, slice_index, slice_index_or, false, IfOk};
ghost use Rattle.graph_types.specs.Whole.{declares};
ghost use Rattle.module_code.specs.Numbers.{load_numbers, is_starred, target_of};

use graph_types::{Item, ItemKind, ModuleGraph, Star};
use pack_util::{ModuleNo, NoMemory};
use std::alloc::Global;

/// Whether an item is an import or an export with a module's name.
pub fn declares(kind: ItemKind) -> bool
    ensures { result ≡ declares kind }
{
    match kind {
        ItemKind::Import | ItemKind::ExportFrom => true,
        ItemKind::Require | ItemKind::Lazy | ItemKind::Eager => false,
    }
}

/// For each item, how many declarations stand before it.
pub fn load_numbers(alloc: Global, items: &[Item]) -> Result<Vec<u32>, NoMemory>
    requires { length items.now < 2 ^ 32 }
    ensures { IfOk result (λ numbers. numbers.items ≡ load_numbers items.now) }
{
    let mut numbers = Vec::new(alloc);
    let mut count = 0;
    for item in items {
        numbers.push(count)?;
        if declares(item.kind) {
            count += 1;
        }
    }
    Ok(numbers)
}

/// The number of an item's load. Without such an item, which no whole record names, it is 0.
pub fn number_of(numbers: &[u32], item: u32) -> u64
    ensures { result ≡ slice_index numbers.now item }
{
    match numbers.get(item as usize) {
        Some(number) => *number as u64,
        None => 0,
    }
}

/// For each of so many items, whether an `export *` has it.
pub fn starred_items(alloc: Global, stars: &[Star], count: usize) -> Result<Vec<bool>, NoMemory>
    ensures len { IfOk result (λ starred. vec_len starred ≡ count) }
    ensures value { IfOk result (λ starred. (number : ℕ) → number < count → slice_index_or starred.items number false ≡ is_starred stars.now number) }
{
    let mut starred = vec![in alloc; false; count]?;
    for star in stars {
        let item = star.item as usize;
        if item < starred.len() {
            starred[item] = true;
        }
    }
    Ok(starred)
}

/// The module that an item names.
pub fn target_of(graph: &ModuleGraph, item: &Item) -> Option<ModuleNo>
    ensures { result ≡ target_of graph.now.records item.now }
{
    graph.module_of(item.target?)
}
