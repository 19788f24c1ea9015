ghost use Rattle.std.specs.Prelude.{◌≡◌};
ghost use Rattle.es_scan.specs.Names.{left_name, right_name};

use es_tokens::Token;
use form_shapes::Source;

/// The first name of a specifier or a declarator.
pub(crate) fn left_name<'a>(text: &'a [u8], part: &'a [Token]) -> &'a [u8]
    ensures { result.now ≡ left_name text.now part.now }
{
    Source::new(text, part).text_at(0)
}

/// The last name of a specifier.
pub(crate) fn right_name<'a>(text: &'a [u8], part: &'a [Token]) -> &'a [u8]
    ensures { result.now ≡ right_name text.now part.now }
{
    Source::new(text, part).text_at(part.len().saturating_sub(1))
}
