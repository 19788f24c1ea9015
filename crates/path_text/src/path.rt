ghost use Rattle.std.specs.Prelude.{◌≡◌, IfOk, ok_or, string_bytes};
ghost use Rattle.path_text.specs.declared.path_end.PathEnd.TheVariants.{Above};
ghost use Rattle.std.specs.List.{list_all, list_any};
ghost use Rattle.pack_util.specs.Answers.{Answers};
ghost use Rattle.path_text.specs.declared.path_end.PathEnd.TheVariants.{NoMemory};
ghost use Rattle.path_text.specs.Path.{IsFolderPath, folder_segments, is_forbidden, is_here, is_name, is_normal, join_of, normal_of, parent_of, segments, step_from, texts, walk_from};

use crate::path_end::PathEnd;
use std::alloc::{AllocError, Global};

/// The normal path that a text names from the root.
pub fn normal(alloc: Global, text: &str) -> Result<String, PathEnd>
    ensures answer { Answers NoMemory string_bytes (normal_of text.now) result }
    ensures normal { IfOk result (λ path. IsFolderPath (string_bytes path)) }
{
    join(alloc, "", text)
}

/// The normal path that `rest` names from a folder.
pub fn join(alloc: Global, folder: &str, rest: &str) -> Result<String, PathEnd>
    requires { IsFolderPath folder.now }
    ensures answer { Answers NoMemory string_bytes (join_of folder.now rest.now) result }
    ensures normal { IfOk result (λ path. IsFolderPath (string_bytes path)) }
{
    if has_forbidden(rest) {
        return Err(PathEnd::BadChar);
    }
    if rest.starts_with('/') {
        return Err(PathEnd::Absolute);
    }
    let mut kept = split_folder(alloc, folder)?;
    walk(&mut kept, rest)?;
    Ok(kept.join(alloc, "/")?)
}

/// All before the last `/`, or the root.
pub fn parent(path: &str) -> &str
    ensures { result.now ≡ parent_of path.now }
{
    match path.rfind('/') {
        Some(end) => &path[..end],
        None => "",
    }
}

pub fn is_normal(path: &str) -> bool
    ensures { result ≡ is_normal path.now }
{
    has_only_names(path) && !has_forbidden(path)
}

fn has_only_names(path: &str) -> bool
    ensures { result ≡ list_all is_name (segments path.now) }
{
    path.split('/')
        .all(|segment| !matches!(segment, "" | "." | ".."))
}

fn has_forbidden(text: &str) -> bool
    ensures { result ≡ list_any is_forbidden text.now }
{
    text.bytes().any(|byte| byte.is_ascii_control())
}

fn split_folder(alloc: Global, folder: &str) -> Result<Vec<&str>, AllocError>
    ensures { IfOk result (λ kept. texts kept.items ≡ folder_segments folder.now) }
{
    if folder.is_empty() {
        return Ok(Vec::new(alloc));
    }
    folder.split('/').collect(alloc)
}

fn walk<'a>(kept: &mut Vec<&'a str>, text: &'a str) -> Result<(), PathEnd>
    ensures { Answers NoMemory (λ _. texts kept.new.items)
        (ok_or (walk_from (texts kept.old.items) (segments text.now)) Above) result }
{
    for segment in text.split('/') {
        step(kept, segment)?;
    }
    Ok(())
}

fn step<'a>(kept: &mut Vec<&'a str>, segment: &'a str) -> Result<(), PathEnd>
    ensures { Answers NoMemory (λ _. texts kept.new.items)
        (ok_or (step_from (texts kept.old.items) segment.now) Above) result }
{
    match segment {
        "" | "." => {}
        ".." => {
            kept.pop().ok_or(PathEnd::Above)?;
        }
        name => kept.push(name)?,
    }
    Ok(())
}
