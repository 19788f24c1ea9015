//! The lines of a sample.
ghost use Rattle.std.specs.Prelude.{◌≡◌, flat_map, IfOk};
ghost use Rattle.pack_run.specs.Sample.{build_hash, sample_line, sample_lines};

use crate::verdict_lines::{one, verdict_lines};
use crate::{Build, Verdict};
use asset_names::content_hash;
use outside::Asset;
use pack_util::{Bytes, NoMemory, Text, add, add_around};
use std::alloc::Global;

/// The digits of the hash that stands for all assets.
const DIGITS: u32 = 20;

/// The lines that the verdict on the sample of so many modules is printed as.
pub(crate) fn sample_lines(alloc: Global, n: u32, verdict: &Verdict) -> Result<Vec<Bytes>, NoMemory>
    ensures { IfOk result (λ lines. lines.items ≡ sample_lines n verdict.now) }
{
    match verdict {
        Verdict::Built(build) => one(alloc, sample_line(alloc, n, build)?),
        _ => verdict_lines(alloc, verdict),
    }
}

fn sample_line(alloc: Global, n: u32, build: &Build) -> Result<Bytes, NoMemory>
    ensures { IfOk result (λ line. line ≡ sample_line n build.now) }
{
    let mut line = Vec::new(alloc);
    add_around(&mut line, b"sample ", n as u64, b": ")?;
    add_around(&mut line, b"", build.modules as u64, b" modules, ")?;
    add_around(&mut line, b"", build.groups as u64, b" groups, ")?;
    add_around(&mut line, b"", build.chunks as u64, b" chunks, ")?;
    add_around(&mut line, b"", build.splits as u64, b" splits, hash ")?;
    let hash = build_hash(alloc, build)?;
    add(&mut line, hash.get().as_bytes())?;
    Ok(Bytes::from_vec(line))
}

/// The hash of all assets' bytes.
fn build_hash(alloc: Global, build: &Build) -> Result<Text, NoMemory>
    ensures { IfOk result (λ hash. hash ≡ build_hash build.now) }
{
    let bytes = all_bytes(alloc, build.assets.as_slice())?;
    content_hash(alloc, &bytes, DIGITS)
}

/// The bytes of the assets, one asset after another.
fn all_bytes(alloc: Global, assets: &[Asset]) -> Result<Vec<u8>, NoMemory>
    ensures { IfOk result (λ bytes. bytes.items ≡ flat_map (λ asset. asset.bytes) assets.now) }
{
    let mut bytes = Vec::new(alloc);
    for asset in assets {
        add(&mut bytes, asset.bytes.get())?;
    }
    Ok(bytes)
}
