//! What holds of the definitions: calls that do nothing and whose clauses are the laws.
ghost use Rattle.std.specs.Prelude.{◌≡◌, ℕ, List, Some, length, count_by, filter_map, slice_get};
ghost use Rattle.std.specs.List.{AllByRecursion, enumerate_from, range_with_len};
ghost use Rattle.graph_types.specs.Edges.{blocks_of};
ghost use Rattle.graph_types.specs.Whole.{IsWhole, LieInOrder, declares};
ghost use Rattle.graph_types.specs.declared.block.Block.{Block};
ghost use Rattle.graph_types.specs.declared.edit.Edit.{Edit};
ghost use Rattle.graph_types.specs.declared.item.Item.{Item};
ghost use Rattle.graph_types.specs.declared.record.ModRecord.{ModRecord};
ghost use Rattle.module_code.specs.Blocks.{block_at};
ghost use Rattle.module_code.specs.Body.{with_edits};
ghost use Rattle.module_code.specs.Numbers.{load_numbers, load_number_of};

/// Edits that put back what was written leave the text as it is: what no edit covers is kept.
pub fn unedited_text_stays()
    ensures { (text : List ℕ) (edits : List Edit) → LieInOrder 0 (length text) edits
        → with_edits (λ written put. written) text 0 edits ≡ text }
{}

/// The numbers of the declarations are 0, 1, 2 and so on.
pub fn declarations_are_counted()
    ensures { (items : List Item)
        → filter_map (load_number_of (load_numbers items)) (enumerate_from 0 items)
        ≡ range_with_len 0 (count_by (λ item. declares item.kind) items) }
{}

/// Each block is found by its module and its item, under the number of its place.
pub fn blocks_are_found()
    ensures { (records : List ModRecord) (number : ℕ) (block : Block) → AllByRecursion IsWhole records
        → slice_get (blocks_of records) number ≡ Some block → block_at records block.«module».0 block.item ≡ Some number }
{}
