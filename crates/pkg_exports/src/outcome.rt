ghost use Rattle.std.specs.Prelude.{◌≡◌};
ghost use Rattle.pkg_exports.specs.inner.Steps.{later_of};

use pack_util::Text;

/// What a value of `exports` is as a target.
#[derive(Drop)]
pub enum Outcome {
    /// No key of an object counts.
    Undefined,
    Null,
    /// The text with each `*` replaced.
    Target(Text),
    BadTarget,
    BadKey,
}

impl Outcome {
    ghost use Rattle.std.specs.Prelude.{◌≡◌};
    ghost use Rattle.pkg_exports.specs.Targets.{ends_list, is_defined};

    /// Whether no later key of an object is tried.
    pub fn is_defined(&self) -> bool
        ensures { result ≡ is_defined self.now }
    {
        !matches!(self, Outcome::Undefined)
    }

    /// Whether no later member of a list is tried.
    pub fn ends_list(&self) -> bool
        ensures { result ≡ ends_list self.now }
    {
        matches!(self, Outcome::Target(_) | Outcome::BadKey)
    }
}

/// What the members of a list leave, where none of them ended it.
pub fn later(last: Outcome, outcome: Outcome) -> Outcome
    ensures { result ≡ later_of last outcome }
{
    match outcome {
        Outcome::Null | Outcome::BadTarget => outcome,
        _ => last,
    }
}
