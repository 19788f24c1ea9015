//! Assets and lines, handed out in order until one is refused.
ghost use Rattle.std.specs.Prelude.{◌≡◌, OnOk, OnErr};
ghost use Rattle.outside.specs.Cause.{HasCause};
ghost use Rattle.pack_run.specs.Report.{Adds, AddsProperFront};

use outside::{Asset, AssetSink, LineSink, OutsideEnd};
use pack_util::Bytes;
use std::alloc::Global;

/// Puts the assets in order.
pub(crate) fn put_all<S: AssetSink>(
    alloc: Global,
    sink: &mut S,
    assets: &[Asset],
) -> Result<(), OutsideEnd>
    ensures held { OnOk result (Adds (S.view sink.old) (S.view sink.new) assets.now) }
    ensures front { OnErr result (AddsProperFront (S.view sink.old) (S.view sink.new) assets.now) }
    ensures cause { HasCause (S.view sink.old).faults (S.view sink.new).faults result }
{
    for asset in assets {
        sink.put(alloc, asset.name.get(), asset.bytes.get())?;
    }
    Ok(())
}

/// Prints the lines in order.
pub(crate) fn print_all<L: LineSink>(
    alloc: Global,
    lines: &mut L,
    texts: &[Bytes],
) -> Result<(), OutsideEnd>
    ensures lines { OnOk result (Adds (L.view lines.old) (L.view lines.new) texts.now) }
    ensures front { OnErr result (AddsProperFront (L.view lines.old) (L.view lines.new) texts.now) }
    ensures cause { HasCause (L.view lines.old).faults (L.view lines.new).faults result }
{
    for text in texts {
        lines.line(alloc, text.get())?;
    }
    Ok(())
}
