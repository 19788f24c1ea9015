//! What holds of the definitions: calls that do nothing and whose clauses are the laws.
ghost use Rattle.std.specs.Prelude.{◌≡◌, ◌+◌, ◌<◌, ℕ, List, Bool, true, None, Some, length};
ghost use Rattle.es_tokens.specs.AreTokens.{AreTokens};
ghost use Rattle.es_tokens.specs.declared.token.Token.{Token};
ghost use Rattle.form_shapes.specs.Apart.{AreWithoutForms, begins_none, begun_at, is_alone};
ghost use Rattle.form_shapes.specs.Forms.{behind_all, end_of, form_at, longest};
ghost use Rattle.form_shapes.specs.Longest.{IsLongestForm};
ghost use Rattle.form_shapes.specs.Shapes.{parts_of};
ghost use Rattle.form_shapes.specs.Source.{is_at};
ghost use Rattle.form_shapes.specs.Standing.{standing_at};
ghost use Rattle.form_shapes.specs.declared.form.Form.{Form};
ghost use Rattle.form_shapes.specs.declared.shape.Shape.{Shape};
ghost use Rattle.form_shapes.specs.declared.sign.Sign.{Sign};

use es_tokens::laws::{brackets_nest, each_brace_is_closed};

/// The form that is taken is one of the forms there, and none of them ends later.
pub fn longest_is_taken()
    ensures { (text : List ℕ) (tokens : List Token) (at : ℕ) (outside : Bool) (shapes : List Shape)
        → IsLongestForm (form_at text tokens at outside) shapes (longest text tokens at outside shapes) }
{}

/// Behind its keyword a form has the parts of its shape, and it ends behind its attributes.
pub fn parts_stand_behind_the_keyword()
    ensures there { (text : List ℕ) (tokens : List Token) (at : ℕ) (form : Form)
        → begun_at text tokens at ≡ Some form → at < length tokens }
    ensures parts { (text : List ℕ) (tokens : List Token) (at : ℕ) (form : Form)
        → begun_at text tokens at ≡ Some form
        → behind_all text tokens (parts_of form.shape) (at + 1) ≡ Some form.parts }
    ensures end { (text : List ℕ) (tokens : List Token) (at : ℕ) (form : Form)
        → begun_at text tokens at ≡ Some form → form.end ≡ end_of text tokens form.shape form.parts }
{}

/// No form begins at a token with a sign of another word or mark.
pub fn other_words_begin_no_form()
    ensures { (text : List ℕ) (tokens : List Token) (at : ℕ) (sign : Sign)
        → begins_none sign ≡ true → is_at text tokens sign at ≡ true → begun_at text tokens at ≡ None }
{}

/// Within a form no other begins, unless it is an export with its declaration.
pub fn forms_stand_apart()
    ensures { (text : List ℕ) (tokens : List Token) (at : ℕ) (form : Form)
        → AreTokens text tokens → begun_at text tokens at ≡ Some form → is_alone (standing_at text tokens at) ≡ true
        → AreWithoutForms text tokens (at + 1) form.end }
{
    brackets_nest();
    each_brace_is_closed();
}
