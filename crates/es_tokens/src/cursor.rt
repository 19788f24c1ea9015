ghost use Rattle.std.specs.Prelude.{◌≡◌, ◌∷◌, [], ◌+◌, ◌<◌, length, MatchOption};
ghost use Rattle.std.specs.Str.{chars};

/// The first character of a text, and what follows it.
pub(crate) fn split_first(text: &str) -> Option<(char, &str)>
    ensures { MatchOption result (chars text.now ≡ [])
        (λ first. (chars text.now ≡ first.0 ∷ chars first.1.now) × (length first.1.now < length text.now)) }
{
    let mut chars = text.chars();
    let first = chars.next()?;
    Some((first, chars.as_str()))
}
