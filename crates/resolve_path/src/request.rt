//! What a request asks for.
ghost use Rattle.std.specs.Prelude.{◌≡◌, IfOk};
ghost use Rattle.std.specs.List.{before_first, after_first, list_any};
ghost use Rattle.path_text.specs.Path.{is_slash};
ghost use Rattle.resolve_path.specs.Requests.{bare_of, is_relative, plain_of, scoped_of};

use pack_util::{NoMemory, Text};
use std::alloc::Global;

/// A package's name, and what follows it and a slash in a request: nothing where the package itself is asked for.
#[derive(Drop)]
pub(crate) struct BareRequest {
    pub(crate) name: Text,
    pub(crate) rest: Text,
}

/// Whether a request names a path.
pub(crate) fn is_relative(request: &str) -> bool
    ensures { result ≡ is_relative request.now }
{
    request == "." || request == ".." || request.starts_with("./") || request.starts_with("../")
}

fn before_slash(text: &str) -> &str
    ensures { result.now ≡ before_first is_slash text.now }
{
    match text.split_once('/') {
        Some((before, _)) => before,
        None => text,
    }
}

fn after_slash(text: &str) -> &str
    ensures { result.now ≡ after_first is_slash text.now }
{
    match text.split_once('/') {
        Some((_, after)) => after,
        None => "",
    }
}

fn plain(alloc: Global, request: &str) -> Result<BareRequest, NoMemory>
    ensures { IfOk result (λ bare. bare ≡ plain_of request.now) }
{
    Ok(BareRequest {
        name: Text::new(alloc, before_slash(request))?,
        rest: Text::new(alloc, after_slash(request))?,
    })
}

fn has_slash(text: &str) -> bool
    ensures { result ≡ list_any is_slash text.now }
{
    text.bytes().any(|byte| byte == b'/')
}

fn scoped(alloc: Global, request: &str) -> Result<Option<BareRequest>, NoMemory>
    ensures { IfOk result (λ bare. bare ≡ scoped_of request.now) }
{
    if !has_slash(request) {
        return Ok(None);
    }
    let bare = plain(alloc, after_slash(request))?;
    let scope = before_slash(request);
    let name = format!(in alloc; "{scope}/{}", bare.name.get())?;
    Ok(Some(BareRequest {
        name: Text::from_string(name),
        rest: bare.rest,
    }))
}

/// The package that a request asks for, where it names one.
pub(crate) fn bare(alloc: Global, request: &str) -> Result<Option<BareRequest>, NoMemory>
    ensures { IfOk result (λ bare. bare ≡ bare_of request.now) }
{
    match request.as_bytes() {
        [] | [b'/', ..] => Ok(None),
        [b'@', ..] => scoped(alloc, request),
        _ => Ok(Some(plain(alloc, request)?)),
    }
}
