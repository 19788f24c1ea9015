//! What holds of the definitions: calls that do nothing and whose clauses are the laws.
ghost use Rattle.std.specs.Prelude.{◌≡◌, ◌<◌, ◌≤◌, ◌∷◌, [], ℕ, List, Ok, Some, length, slice_get};
ghost use Rattle.std.specs.List.{AllZip};
ghost use Rattle.es_tokens.specs.Tokens.{tokens_of};
ghost use Rattle.es_tokens.specs.declared.token.Token.{Token};
ghost use Rattle.pack_util.specs.declared.number.TheConstants.{MAX_TEXT};
ghost use Rattle.graph_types.specs.Whole.{IsWhole};
ghost use Rattle.graph_types.specs.declared.item.Item.{Item};
ghost use Rattle.graph_types.specs.declared.record.ModRecord.{ModRecord};
ghost use Rattle.es_scan.specs.Quiet.{IsQuiet, quiet_scan};
ghost use Rattle.es_scan.specs.Scan.{item_number, items_at, scan_of, upto};
ghost use Rattle.es_scan.specs.Whole.{AreLikeItems, IsWholeScan, TellsOf};
ghost use Rattle.es_scan.specs.declared.scanned.Scan.{Scan};

use es_tokens::laws::{one_list_or_one_fault, spans_lie_in_order, tokens_stand_behind_a_hashbang};
use form_shapes::laws::{
    forms_stand_apart, other_words_begin_no_form, parts_stand_behind_the_keyword,
};

/// A text without `import`, `export` and `require` gives nothing, but for the edit of a `#!`.
pub fn quiet_text_gives_nothing()
    ensures { (path text : List ℕ) (tokens : List Token)
        → IsQuiet text tokens → scan_of path text tokens ≡ quiet_scan text }
{}

/// The number that binds, exports, stars and edits have of a token's item is its place among all items.
pub fn number_names_the_item()
    ensures { (text : List ℕ) (tokens : List Token) (at size : ℕ) (item : Item)
        → at < size → items_at text tokens at ≡ item ∷ []
        → slice_get (upto (items_at text tokens) size) (item_number text tokens at) ≡ Some item }
{}

/// The numbers in a scan name items of their kinds, its items lie in the text, and there are few of them; its edits lie in
/// the text, in order and disjoint.
pub fn scan_is_whole()
    ensures { (path text : List ℕ) (tokens : List Token)
        → length text ≤ MAX_TEXT → tokens_of text ≡ Ok tokens → IsWholeScan text (scan_of path text tokens) }
{
    one_list_or_one_fault();
    spans_lie_in_order();
    tokens_stand_behind_a_hashbang();
    parts_stand_behind_the_keyword();
    other_words_begin_no_form();
    forms_stand_apart();
}

/// Items with targets in the place of a scan's leave it as whole as it was, and so a record that tells of it is whole.
pub fn targets_keep_a_scan_whole()
    ensures scan { (text : List ℕ) (scan : Scan) (items : List Item)
        → AllZip AreLikeItems scan.items items → IsWholeScan text scan → IsWholeScan text (record scan { items = items }) }
    ensures rec { (rec : ModRecord) (scan : Scan)
        → IsWholeScan rec.text scan → TellsOf scan rec → IsWhole rec }
{}
