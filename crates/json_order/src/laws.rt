//! What holds of the definitions: calls that do nothing and whose clauses are the laws.
ghost use Rattle.std.specs.Prelude.{◌≡◌, ◌≤◌, [], List, ℕ, length, Result, Err};
ghost use Rattle.json_order.specs.Answer.{IsAnswer};
ghost use Rattle.json_order.specs.declared.fault.JsonFault.{JsonFault};
ghost use Rattle.json_order.specs.Members.{merged};
ghost use Rattle.json_order.specs.MembersLaw.{member, with_last, AreDistinct, AreAscending};
ghost use Rattle.json_order.specs.declared.tree.JsonPair.{JsonPair};
ghost use Rattle.json_order.specs.declared.tree.JsonTree.{JsonTree};

/// Each text has one answer: one tree, or one fault.
pub fn one_answer()
    ensures { (text : List ℕ) (one other : Result JsonTree JsonFault) → IsAnswer text one → IsAnswer text other → one ≡ other }
{}

/// Each text has an answer.
pub fn each_text_has_an_answer()
    ensures { (text : List ℕ) → (answer : Result JsonTree JsonFault) × IsAnswer text answer }
{}

/// A fault stands in the text, or at its end.
pub fn faults_lie_in_the_text()
    ensures { (text : List ℕ) (fault : JsonFault) → IsAnswer text (Err fault) → fault.offset ≤ length text }
{}

/// The members of an object have distinct keys, each is at the first place of its key with its last value, and they stand in
/// the order of these places, where those that are written do.
pub fn members_keep_first_places_and_last_values()
    ensures distinct { (given : List JsonPair) → AreDistinct (merged [] given) }
    ensures found { (given : List JsonPair) (key : List ℕ) → member key (merged [] given) ≡ with_last key given (member key given) }
    ensures order { (from : ℕ) (given : List JsonPair) → AreAscending from given → AreAscending from (merged [] given) }
{}
