ghost use Rattle.std.specs.Prelude.{◌≡◌, IfOk};
ghost use Rattle.es_scan.specs.Notes.{notes_by};

use crate::list::one;
use form_shapes::{Source, Standing};
use graph_types::{Note, NoteKind};
use magic_comments::Magic;
use pack_util::{NoMemory, Seq, Text};
use std::alloc::Global;

/// What is told of what stands at a token.
#[tactic(auto, unfolding(crate::specs::Notes::notes_by))]
pub(crate) fn notes_by(
    alloc: Global,
    source: Source,
    at: usize,
    standing: Standing,
    magic: Magic,
) -> Result<Seq<Note>, NoMemory>
    ensures { IfOk result (λ notes. notes ≡ notes_by source.entry.tokens.now at magic standing) }
{
    match standing {
        Standing::ImportCall(_) | Standing::OddImport => Ok(magic.notes),
        Standing::OddRequire => {
            let note = Note {
                at: source.start_at(at),
                kind: NoteKind::N2,
                detail: Text::new(alloc, "")?,
            };
            one(alloc, note)
        }
        _ => Ok(Seq::new(alloc)),
    }
}
