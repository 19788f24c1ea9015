ghost use Rattle.std.specs.Prelude.{◌≡◌, ◌≤◌, length, IfSome, MatchOption};
ghost use Rattle.std.specs.Option.{option_map};
ghost use Rattle.std.specs.Str.{chars};
ghost use Rattle.es_tokens.specs.Shape.{Shape, no_text, takes_empty, after_first, has_shape};
ghost use Rattle.es_tokens.specs.Longest.{after_longest};

use crate::cursor::split_first;

/// A reader of one shape, a character at a time.
pub(crate) trait Machine: Copy {
    /// The shape of what may still come.
    ghost shape: { Self → Shape };

    fn can_end(self) -> bool
        ensures { result ≡ takes_empty (shape self) };

    fn step(self, c: char) -> Option<Self>
        ensures { MatchOption result (after_first (shape self) c ≡ no_text)
            (λ next. after_first (shape self) c ≡ shape next) };
}

/// What is left behind the longest front that the machine accepts.
pub(crate) fn after_longest<M: Machine>(machine: M, text: &str) -> Option<&str>
    ensures rest { option_map (λ rest. chars rest.now) result
        ≡ after_longest (has_shape (M.shape machine)) (chars text.now) }
    ensures within { IfSome result (λ rest. length rest.now ≤ length text.now) }
{
    let mut state = machine;
    let mut rest = text;
    let mut best = None;
    loop {
        best = state.can_end().then_some(rest).or(best);
        let Some((c, after)) = split_first(rest) else {
            return best;
        };
        let Some(next) = state.step(c) else {
            return best;
        };
        state = next;
        rest = after;
    }
}
