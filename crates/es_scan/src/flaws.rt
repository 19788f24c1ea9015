ghost use Rattle.std.specs.Prelude.{◌≡◌, ◌+◌, ◌<◌, ◌^◌, IfOk};
ghost use Rattle.es_scan.specs.Flaws.{flaw_at, is_method, flaws_by};

use crate::list::one;
use fault_place::FaultKind;
use form_shapes::{Sign, Source, Standing};
use magic_comments::Magic;
use pack_util::{NoMemory, Seq, Text};
use std::alloc::Global;

/// A fault at an offset of the text, whose line and column aren't known yet.
#[derive(Drop)]
pub(crate) struct Flaw {
    pub(crate) offset: u32,
    pub(crate) kind: FaultKind,
    pub(crate) detail: Text,
}

fn flaw_at(alloc: Global, source: Source, at: usize, kind: FaultKind) -> Result<Flaw, NoMemory>
    ensures { IfOk result (λ flaw. flaw ≡ flaw_at source.entry.tokens.now at kind) }
{
    Ok(Flaw {
        offset: source.start_at(at),
        kind,
        detail: Text::new(alloc, "")?,
    })
}

/// Whether a body stands behind the brackets behind a token, so that it is a method's name.
fn is_method(source: Source, at: usize) -> bool
    requires { at < 2 ^ 32 }
    ensures { result ≡ is_method source.entry.text.now source.entry.tokens.now at }
{
    source.is_at(Sign::Brace, source.mate_at(at + 1) + 1)
}

/// What is wrong with what stands at a token.
#[tactic(auto, unfolding(crate::specs::Flaws::flaws_by))]
pub(crate) fn flaws_by(
    alloc: Global,
    source: Source,
    at: usize,
    standing: Standing,
    magic: &Magic,
) -> Result<Seq<Flaw>, NoMemory>
    requires { at < 2 ^ 32 }
    ensures { IfOk result
        (λ flaws. flaws ≡ flaws_by source.entry.text.now source.entry.tokens.now at magic.now standing) }
{
    match standing {
        Standing::BadForm => one(alloc, flaw_at(alloc, source, at, FaultKind::Form)?),
        Standing::OddImport if !(magic.ignored || is_method(source, at)) => {
            one(
                alloc,
                flaw_at(alloc, source, at, FaultKind::DynamicRequest)?,
            )
        }
        _ => Ok(Seq::new(alloc)),
    }
}
