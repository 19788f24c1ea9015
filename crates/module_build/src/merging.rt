//! Notes of two lists in one.
ghost use Rattle.std.specs.Prelude.{◌≡◌, ◌≤◌, ◌<◌, ◌⊎◌, length, IfOk};
ghost use Rattle.module_build.specs.Merged.{merged};
ghost use Rattle.module_build.specs.inner.Next.{is_first_next};

use graph_types::Note;
use pack_util::NoMemory;
use std::alloc::Global;

/// Whether the next note is the first list's, where some are left.
fn is_first_next(notes: &[Note], others: &[Note]) -> bool
    ensures { result ≡ is_first_next notes.now others.now }
{
    match (notes, others) {
        ([], _) => false,
        ([_, ..], []) => true,
        ([note, ..], [other, ..]) => other.at >= note.at,
    }
}

/// The notes of both lists by offset; at one offset those of the first list stand first.
pub(crate) fn merged(alloc: Global, notes: &[Note], others: &[Note]) -> Result<Vec<Note>, NoMemory>
    ensures { IfOk result (λ all. all.items ≡ merged notes.now others.now) }
{
    let mut all = Vec::new(alloc);
    let (mut at, mut other) = (0, 0);
    while at < notes.len() || other < others.len() {
        if is_first_next(&notes[at..], &others[other..]) {
            all.push(notes[at].clone()?)?;
            at += 1;
        } else {
            all.push(others[other].clone()?)?;
            other += 1;
        }
    }
    Ok(all)
}
