ghost use Rattle.std.specs.Prelude.{◌≡◌, ◌≢◌, [], OnOk, OnErr};
ghost use Rattle.outside.specs.Cause.{Rose, HasCause};
ghost use Rattle.pack_run.specs.End.{OnNothingPut};
ghost use Rattle.pack_run.specs.Report.{Adds, AddsProperFront, CanReport, Leaves, MayEnd, Reports};
ghost use Rattle.pack_run.specs.Verdict.{end_by, assets_of};

use crate::output::{print_all, put_all};
use crate::verdict_lines::verdict_lines;
use crate::{End, Verdict};
use outside::{AssetSink, LineSink, OutsideEnd};
use std::alloc::Global;

pub(crate) fn end_of(verdict: &Verdict) -> End
    requires { CanReport verdict.now }
    ensures { result ≡ end_by verdict.now }
{
    match verdict {
        Verdict::Usage => End::Usage,
        Verdict::Config { .. } => End::Config,
        Verdict::Limit(limit) => End::Limit(*limit),
        Verdict::Faults(faults) => End::Faults(faults.as_slice().len() as u32),
        Verdict::Built(_) => End::Built,
    }
}

/// Puts the assets of a verdict, where it has some.
fn put_assets<S: AssetSink>(
    alloc: Global,
    verdict: &Verdict,
    sink: &mut S,
) -> Result<(), OutsideEnd>
    ensures held { OnOk result (Adds (S.view sink.old) (S.view sink.new) (assets_of verdict.now)) }
    ensures cause { HasCause (S.view sink.old).faults (S.view sink.new).faults result }
    ensures front { OnErr result (AddsProperFront (S.view sink.old) (S.view sink.new) (assets_of verdict.now)) }
    ensures some { OnErr result (assets_of verdict.now ≢ []) }
    ensures nothing { OnNothingPut (end_by verdict.now) (Leaves (S.view sink.old) (S.view sink.new)) }
{
    match verdict {
        Verdict::Built(build) => put_all(alloc, sink, build.assets.as_slice()),
        _ => Ok(()),
    }
}

/// Puts the assets of a verdict and prints its lines.
pub(crate) fn report<S: AssetSink, L: LineSink>(
    alloc: Global,
    verdict: &Verdict,
    sink: &mut S,
    lines: &mut L,
) -> End
    requires { CanReport verdict.now }
    ensures reports { Reports verdict.now (S.view sink.old) (S.view sink.new) (L.view lines.old) (L.view lines.new) result }
    ensures end { MayEnd verdict.now result }
    ensures write_cause { result ≡ End.WriteFault → Rose (S.view sink.old).faults (S.view sink.new).faults }
    ensures line_cause { result ≡ End.LineFault → Rose (L.view lines.old).faults (L.view lines.new).faults }
    ensures nothing { OnNothingPut (end_by verdict.now) (Leaves (S.view sink.old) (S.view sink.new)) }
{
    match put_assets(alloc, verdict, sink) {
        Ok(()) => {}
        Err(OutsideEnd::Failed) => return End::WriteFault,
        Err(OutsideEnd::NoMemory) => return End::NoMemory,
    }
    let Ok(texts) = verdict_lines(alloc, verdict) else {
        return End::NoMemory;
    };
    match print_all(alloc, lines, &texts) {
        Ok(()) => end_of(verdict),
        Err(OutsideEnd::Failed) => End::LineFault,
        Err(OutsideEnd::NoMemory) => End::NoMemory,
    }
}
