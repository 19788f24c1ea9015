ghost use Rattle.std.specs.Prelude.{◌≡◌, MatchOption};
ghost use Rattle.es_tokens.specs.Shape.{no_text, after_first};
ghost use Rattle.es_tokens.specs.NameShape.{name_rest};
ghost use Rattle.es_tokens.specs.inner.NameMachine.{name_left};

use crate::character::{is_name_part, is_name_start};
use crate::escape::Escape;
use crate::machine::Machine;

/// Where a name stands.
#[derive(Clone, Copy)]
pub(crate) enum Name {
    /// Before the `#` of a private name.
    Private,
    First,
    Rest,
    Escaped(Escape),
}

#[tactic(auto, using(crate::proofs::Literals::literals))]
fn after_start(c: char) -> Option<Name>
    ensures { MatchOption result (after_first name_rest c ≡ no_text)
        (λ next. after_first name_rest c ≡ name_left next) }
{
    match c {
        '\\' => Some(Name::Escaped(Escape::Backslash)),
        _ => is_name_part(c).then_some(Name::Rest),
    }
}

impl Machine for Name {
    ghost shape = { name_left };

    #[tactic(auto, using(crate::proofs::ShapeLemmas::sequences))]
    fn can_end(self) -> bool {
        match self {
            Name::Private | Name::First => false,
            Name::Rest => true,
            Name::Escaped(escape) => escape.can_end(),
        }
    }

    #[tactic(auto, using(crate::proofs::Literals::literals, crate::proofs::ShapeLemmas::sequences))]
    fn step(self, c: char) -> Option<Name> {
        match self {
            Name::Private => match c {
                '#' => Some(Name::First),
                _ => None,
            },
            Name::First => match c {
                '\\' => Some(Name::Escaped(Escape::Backslash)),
                _ => is_name_start(c).then_some(Name::Rest),
            },
            Name::Rest => after_start(c),
            Name::Escaped(Escape::Done) => after_start(c),
            Name::Escaped(escape) => Some(Name::Escaped(escape.step(c)?)),
        }
    }
}
