ghost use Rattle.std.specs.Prelude.{◌≡◌, IfOk};
ghost use Rattle.pack_run.specs.Report.{CanReport};
ghost use Rattle.pack_run.specs.inner.Conclusion.{Concludes, end_without};

use crate::report::report;
use crate::{End, Verdict};
use outside::{AssetSink, LineSink, OutsideEnd};
use std::alloc::Global;

/// Reports the verdict that a build comes to, or ends as the call that ended it.
pub(crate) fn conclude<S: AssetSink, L: LineSink>(
    alloc: Global,
    decided: Result<Verdict, OutsideEnd>,
    sink: &mut S,
    lines: &mut L,
) -> End
    requires { IfOk decided CanReport }
    ensures { Concludes decided (S.view sink.old) (S.view sink.new) (L.view lines.old) (L.view lines.new) result }
{
    match decided {
        Ok(verdict) => report(alloc, &verdict, sink, lines),
        Err(end) => end_without(end),
    }
}

fn end_without(end: OutsideEnd) -> End
    ensures { result ≡ end_without end }
{
    match end {
        OutsideEnd::Failed => End::ReadFault,
        OutsideEnd::NoMemory => End::NoMemory,
    }
}
