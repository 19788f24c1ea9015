//! What the parts of a round come to.
ghost use Rattle.std.specs.Prelude.{◌≡◌, flat_map, IfOk, IsErrOf, IsOk};
ghost use Rattle.std.specs.List.{AllByRecursion};
ghost use Rattle.outside.specs.declared.outside_end.OutsideEnd.TheVariants.{Failed};
ghost use Rattle.build_round.specs.inner.Parts.{SomeFailed, kept_by};

use crate::part::Part;
use outside::OutsideEnd;
use pack_util::FileId;
use std::alloc::Global;

/// The files that the workers kept, one worker after another, or how the first of them ended that failed.
pub(crate) fn answer<R>(alloc: Global, parts: &[Part<R>]) -> Result<Vec<FileId>, OutsideEnd>
    ensures kept { IfOk result (λ kept. kept.items ≡ flat_map kept_by parts.now) }
    ensures well { IfOk result (λ _. AllByRecursion (λ part. IsOk part.end) parts.now) }
    ensures cause { IsErrOf result Failed → SomeFailed parts.now }
{
    let mut kept = Vec::new(alloc);
    for part in parts {
        part.end?;
        kept.extend_from_slice(part.bench.kept.as_slice())?;
    }
    Ok(kept)
}
