ghost use Rattle.std.specs.Prelude.{◌≡◌};

use crate::form::longer;
use crate::shape::{export_shapes, import_shapes, require_shapes};
use crate::source::is_bracket;
use crate::{Form, Part, Shape, Sign, Source, Standing};

impl<'a> Source<'a> {
    ghost use Rattle.std.specs.Prelude.{◌≡◌, ◌<◌, ◌≤◌, ◌^◌, ◌+◌, ◌||◌, length, None, not, slice_get, IfSome};
    ghost use Rattle.std.specs.List.{list_any};
    ghost use Rattle.form_shapes.specs.Source.{is_at, is_outside, is_bracket, inside};
    ghost use Rattle.form_shapes.specs.Forms.{behind, behind_all, behind_attributes, end_of, form_at, longest, longest_from};
    ghost use Rattle.form_shapes.specs.Standing.{is_behind, import_at, export_at, require_at, keyword_at, standing_at};

    /// Behind a part.
    #[tactic(auto, unfolding(crate::specs::Forms::behind))]
    fn behind(self, part: Part, at: usize) -> Option<usize>
        ensures { result ≡ behind self.entry.text.now self.entry.tokens.now part at }
    {
        match part {
            Part::One(sign) if self.is_at(sign, at) => Some(at + 1),
            Part::One(_) => None,
            Part::Named(side) => self.behind_names(side, at),
            Part::Variables => self.behind_variables(at),
        }
    }

    /// Behind parts, one after another.
    fn behind_all(self, parts: &[Part], at: usize) -> Option<usize>
        ensures { result ≡ behind_all self.entry.text.now self.entry.tokens.now parts.now at }
    {
        let mut at = at;
        for part in parts {
            at = self.behind(*part, at)?;
        }
        Some(at)
    }

    fn has_brackets(self, at: usize) -> bool
        requires { at < length self.tokens.now }
        ensures { result ≡ list_any (is_bracket self.entry.text.now) (inside self.entry.tokens.now at) }
    {
        self.inside(at)
            .iter()
            .any(|token| is_bracket(self.text, token))
    }

    /// Behind attributes, where they stand.
    #[tactic(auto, unfolding(crate::specs::Forms::behind_attributes))]
    fn behind_attributes(self, at: usize) -> usize
        ensures { result ≡ behind_attributes self.entry.text.now self.entry.tokens.now at }
    {
        if self.is_at(Sign::With, at)
            && (self.is_at(Sign::Brace, at + 1) && !self.has_brackets(at + 1))
        {
            self.mate_at(at + 1) + 1
        } else {
            at
        }
    }

    fn end_of(self, shape: Shape, parts: usize) -> usize
        ensures { result ≡ end_of self.entry.text.now self.entry.tokens.now shape parts }
    {
        if shape.takes_attributes() {
            self.behind_attributes(parts)
        } else {
            parts
        }
    }

    /// The form of a shape whose parts begin at a token.
    #[tactic(auto, unfolding(crate::specs::Forms::form_at))]
    fn form(self, at: usize, outside: bool, shape: Shape) -> Option<Form>
        ensures { result ≡ form_at self.entry.text.now self.entry.tokens.now at outside shape }
    {
        if !(outside || shape.is_call()) {
            return None;
        }
        let parts = self.behind_all(shape.parts(), at)?;
        Some(Form {
            shape,
            parts,
            end: self.end_of(shape, parts),
        })
    }

    /// The longest form of these shapes whose parts begin at a token.
    fn longest(self, at: usize, outside: bool, shapes: &[Shape]) -> Option<Form>
        ensures { result ≡ longest self.entry.text.now self.entry.tokens.now at outside shapes.now }
    {
        let mut best = None;
        for shape in shapes {
            best = longer(best, self.form(at, outside, *shape));
        }
        best
    }

    /// Whether the token before this one has a sign.
    fn is_behind(self, sign: Sign, at: usize) -> bool
        ensures { result ≡ is_behind self.entry.text.now self.entry.tokens.now sign at }
    {
        match at.checked_sub(1) {
            Some(before) => self.is_at(sign, before),
            None => false,
        }
    }

    #[tactic(auto, unfolding(crate::specs::Standing::import_at))]
    fn import_at(self, at: usize) -> Standing
        requires { at < length self.tokens.now }
        ensures { result ≡ import_at self.entry.text.now self.entry.tokens.now at }
    {
        let outside = self.is_outside(at);
        match self.longest(at + 1, outside, import_shapes()) {
            Some(form) if form.shape.is_call() => Standing::ImportCall(form),
            Some(form) => Standing::Declaration(form),
            None if self.is_at(Sign::Open, at + 1) => Standing::OddImport,
            None if outside || self.is_at(Sign::Period, at + 1) => Standing::BadForm,
            None => Standing::Nothing,
        }
    }

    #[tactic(auto, unfolding(crate::specs::Standing::export_at))]
    fn export_at(self, at: usize) -> Standing
        requires { at < length self.tokens.now }
        ensures { result ≡ export_at self.entry.text.now self.entry.tokens.now at }
    {
        let outside = self.is_outside(at);
        match self.longest(at + 1, outside, export_shapes()) {
            Some(form) => Standing::Declaration(form),
            None if outside => Standing::BadForm,
            None => Standing::Nothing,
        }
    }

    #[tactic(auto, unfolding(crate::specs::Standing::require_at))]
    fn require_at(self, at: usize) -> Standing
        requires { at < length self.tokens.now }
        ensures { result ≡ require_at self.entry.text.now self.entry.tokens.now at }
    {
        match self.longest(at + 1, self.is_outside(at), require_shapes()) {
            Some(form) => Standing::RequireCall(form),
            None if self.is_at(Sign::Open, at + 1) && !self.is_behind(Sign::Function, at) => {
                Standing::OddRequire
            }
            None => Standing::Nothing,
        }
    }

    /// What stands at a token by its keyword.
    fn keyword_at(self, at: usize) -> Standing
        requires { at < length self.tokens.now }
        ensures { result ≡ keyword_at self.entry.text.now self.entry.tokens.now at }
    {
        if self.is_at(Sign::Import, at) {
            self.import_at(at)
        } else if self.is_at(Sign::Export, at) {
            self.export_at(at)
        } else if self.is_at(Sign::Require, at) {
            self.require_at(at)
        } else {
            Standing::Nothing
        }
    }

    /// What stands at a token.
    #[tactic(auto, unfolding(crate::specs::Standing::standing_at))]
    pub fn standing_at(self, at: usize) -> Standing
        requires { at < length self.tokens.now }
        ensures { result ≡ standing_at self.entry.text.now self.entry.tokens.now at }
    {
        match self.keyword_at(at) {
            Standing::Nothing => Standing::Nothing,
            _ if self.is_behind(Sign::Member, at) => Standing::Nothing,
            standing => standing,
        }
    }
}
