ghost use Rattle.std.specs.Prelude.{◌≡◌, ◌+◌, ◌<◌, ◌^◌};
ghost use Rattle.std.specs.Option.{option_map_or};
ghost use Rattle.es_scan.specs.Default.{is_on_new_line, behind_star, named_or, default_at};

use form_shapes::{Sign, Source};

/// What `export default` is followed by.
#[derive(Clone, Copy)]
pub(crate) enum Default {
    Expression,
    /// A declaration whose name is this token.
    Named(usize),
    /// A declaration whose name would stand behind this token.
    Unnamed(usize),
}

fn is_on_new_line(source: Source, at: usize) -> bool
    ensures { result ≡ is_on_new_line source.entry.tokens.now at }
{
    match source.token(at) {
        Some(token) => token.new_line,
        None => false,
    }
}

/// The `*` behind a token, or else that token.
fn behind_star(source: Source, at: usize) -> usize
    requires { at < 2 ^ 34 }
    ensures value { result ≡ behind_star source.entry.text.now source.entry.tokens.now at }
    ensures small { result < 2 ^ 35 }
{
    if source.is_at(Sign::Star, at + 1) {
        at + 1
    } else {
        at
    }
}

fn named_or(source: Source, at: usize) -> Default
    requires { at < 2 ^ 35 }
    ensures { result ≡ named_or source.entry.text.now source.entry.tokens.now at }
{
    if source.is_at(Sign::Name, at + 1) {
        Default::Named(at + 1)
    } else {
        Default::Unnamed(at)
    }
}

/// What is exported as the default, from the token behind `default` on.
#[tactic(auto, unfolding(crate::specs::Default::default_at))]
pub(crate) fn default_at(source: Source, at: usize) -> Default
    requires { at < 2 ^ 33 }
    ensures { result ≡ default_at source.entry.text.now source.entry.tokens.now at }
{
    if source.is_at(Sign::Function, at) {
        named_or(source, behind_star(source, at))
    } else if source.is_at(Sign::Class, at) {
        named_or(source, at)
    } else if source.is_at(Sign::Async, at)
        && (source.is_at(Sign::Function, at + 1) && !is_on_new_line(source, at + 1))
    {
        named_or(source, behind_star(source, at + 1))
    } else {
        Default::Expression
    }
}
