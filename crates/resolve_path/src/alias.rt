//! Aliases of requests.
ghost use Rattle.std.specs.Prelude.{◌≡◌, Some, None, IfOk, if◌then◌else◌};
ghost use Rattle.std.specs.Option.{option_copied};
ghost use Rattle.resolve_path.specs.Requests.{goes_on, is_aliased, is_whole, alias_name, rest_behind};
ghost use Rattle.resolve_path.specs.inner.Parts.{replaced_by};

use pack_util::{NoMemory, Text};
use std::alloc::Global;

fn is_whole(key: &str) -> bool
    ensures { result ≡ is_whole key.now }
{
    key.ends_with('$')
}

/// What a key stands for.
fn name_of(key: &str) -> &str
    ensures { result.now ≡ alias_name key.now }
{
    match key.strip_suffix('$') {
        Some(name) => name,
        None => key,
    }
}

/// Whether nothing follows a key's name, or a slash does and the key lets it.
fn goes_on(rest: &str, key: &str) -> bool
    ensures { result ≡ goes_on rest.now key.now }
{
    rest.is_empty() || !is_whole(key) && rest.starts_with("/")
}

/// What follows a key's name in a request, where the key matches.
fn rest_of<'a>(request: &'a str, key: &str) -> Option<&'a str>
    ensures { option_copied result ≡ (if is_aliased request.now key.now then Some (rest_behind request.now key.now) else None) }
{
    let rest = request.strip_prefix(name_of(key))?;
    if !goes_on(rest, key) {
        return None;
    }
    Some(rest)
}

/// What a request becomes by the first alias that matches, where one does.
pub(crate) fn replaced(
    alloc: Global,
    aliases: &[(Text, Text)],
    request: &str,
) -> Result<Option<Text>, NoMemory>
    ensures { IfOk result (λ other. other ≡ replaced_by aliases.now request.now) }
{
    let mut left = aliases;
    while let [alias, others @ ..] = left {
        if let Some(rest) = rest_of(request, alias.0.get()) {
            let value = alias.1.get();
            return Ok(Some(Text::from_string(format!(in alloc; "{value}{rest}")?)));
        }
        left = others;
    }
    Ok(None)
}
