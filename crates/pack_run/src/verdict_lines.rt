ghost use Rattle.std.specs.Prelude.{◌≡◌, ◌++◌, [], ◌∷◌, OnOk, IfOk, map, length, codes, decimal};
ghost use Rattle.fault_place.specs.Fault.{line_of};
ghost use Rattle.fault_place.specs.Limit.{name_of, number_of};
ghost use Rattle.pack_run.specs.Verdict.{config_kind_name, lines_of, config_line, limit_line, count_line, built_line};

use crate::{Build, Verdict};
use fault_place::{Fault, Limit, Place, fault_line};
use pack_config::ConfigKind;
use pack_util::{Bytes, NoMemory, add, add_around, add_number};
use std::alloc::Global;

const USAGE: &[u8] =
    b"usage: chunkpack build CONFIG [--workers N] | chunkpack sample N [--workers N]";

fn kind_name(kind: ConfigKind) -> &'static [u8]
    ensures { result.now ≡ config_kind_name kind }
{
    match kind {
        ConfigKind::TooLong => b"TooLong",
        ConfigKind::Json => b"Json",
        ConfigKind::UnknownKey => b"UnknownKey",
        ConfigKind::WrongType => b"WrongType",
        ConfigKind::OutOfRange => b"OutOfRange",
        ConfigKind::Repeated => b"Repeated",
    }
}

fn config_line(alloc: Global, place: &Place, kind: ConfigKind) -> Result<Bytes, NoMemory>
    ensures { IfOk result (λ line. line ≡ config_line place.now kind) }
{
    let mut line = Vec::new(alloc);
    add(&mut line, place.path.get().as_bytes())?;
    add(&mut line, b":")?;
    add_number(&mut line, place.line)?;
    add(&mut line, b":")?;
    add_number(&mut line, place.column)?;
    add(&mut line, b": config ")?;
    add(&mut line, kind_name(kind))?;
    Ok(Bytes::from_vec(line))
}

fn limit_line(alloc: Global, limit: Limit) -> Result<Bytes, NoMemory>
    ensures { IfOk result (λ line. line ≡ limit_line limit) }
{
    let mut line = Vec::new(alloc);
    add(&mut line, b"limit: ")?;
    add(&mut line, limit.name().as_bytes())?;
    add(&mut line, b" above ")?;
    add_number(&mut line, limit.number())?;
    Ok(Bytes::from_vec(line))
}

fn count_line(alloc: Global, count: usize) -> Result<Bytes, NoMemory>
    ensures { IfOk result (λ line. line ≡ count_line count) }
{
    let mut line = Vec::new(alloc);
    add(&mut line, b"faults: ")?;
    add_number(&mut line, count as u64)?;
    Ok(Bytes::from_vec(line))
}

fn fault_lines(alloc: Global, faults: &[Fault]) -> Result<Vec<Bytes>, NoMemory>
    ensures { IfOk result (λ lines. lines.items ≡ map line_of faults.now ++ count_line (length faults.now) ∷ []) }
{
    let mut lines = Vec::new(alloc);
    for fault in faults {
        lines.push(Bytes::from_vec(fault_line(alloc, fault)?))?;
    }
    lines.push(count_line(alloc, faults.len())?)?;
    Ok(lines)
}

fn built_line(alloc: Global, build: &Build) -> Result<Bytes, NoMemory>
    ensures { IfOk result (λ line. line ≡ built_line build.now) }
{
    let mut line = Vec::new(alloc);
    add_around(&mut line, b"built: ", build.modules as u64, b" modules, ")?;
    add_around(&mut line, b"", build.chunks as u64, b" chunks, ")?;
    add_around(
        &mut line,
        b"",
        build.assets.as_slice().len() as u64,
        b" assets",
    )?;
    Ok(Bytes::from_vec(line))
}

pub(crate) fn one(alloc: Global, line: Bytes) -> Result<Vec<Bytes>, NoMemory>
    ensures { IfOk result (λ lines. lines.items ≡ line ∷ []) }
{
    let mut lines = Vec::new(alloc);
    lines.push(line)?;
    Ok(lines)
}

/// The lines that a verdict is printed as.
pub fn verdict_lines(alloc: Global, verdict: &Verdict) -> Result<Vec<Bytes>, NoMemory>
    ensures { IfOk result (λ lines. lines.items ≡ lines_of verdict.now) }
{
    match verdict {
        Verdict::Usage => one(alloc, Bytes::new(alloc, USAGE)?),
        Verdict::Config { place, kind } => one(alloc, config_line(alloc, place, *kind)?),
        Verdict::Limit(limit) => one(alloc, limit_line(alloc, *limit)?),
        Verdict::Faults(faults) => fault_lines(alloc, faults.as_slice()),
        Verdict::Built(build) => one(alloc, built_line(alloc, build)?),
    }
}
