//! What a module graph comes to: its faults in their order, or what it is sealed to.
ghost use Rattle.std.specs.Prelude.{◌≡◌, ◌<◌, ◌^◌, ◌++◌, ◌∷◌, [], codes, length, IfOk};
ghost use Rattle.fault_place.specs.Fault.{in_order};
ghost use Rattle.graph_types.specs.Fits.{Fits};
ghost use Rattle.outside.specs.Sinks.{asset};
ghost use Rattle.pack_run.specs.Report.{CanReport, IsOfBuild};
ghost use Rattle.pack_run.specs.Verdict.{IsGraphVerdict, build_of};

use crate::{Build, Verdict};
use fault_place::{Fault, sort_faults};
use graph_types::{Config, ModuleGraph};
use outside::Asset;
use pack_util::{Bytes, NoMemory, Seq, Text};
use seal_build::laws::sealed_serves;
use seal_build::{SealEnd, Sealed, seal_by_one};
use std::alloc::{AllocError, Global};

fn new_asset(alloc: Global, name: &str, bytes: Bytes) -> Result<Asset, NoMemory>
    ensures { IfOk result (λ made. made ≡ asset name.now bytes) }
{
    Ok(Asset {
        name: Text::new(alloc, name)?,
        bytes,
    })
}

/// The assets of what so many modules were sealed to, and behind them the stats.
fn build(alloc: Global, modules: u32, sealed: Sealed) -> Result<Build, NoMemory>
    ensures { IfOk result (λ made. made ≡ build_of modules sealed) }
{
    let stats = new_asset(alloc, "stats.json", sealed.stats)?;
    let groups = sealed.groups;
    let chunks = sealed.chunks;
    let splits = sealed.splits;
    let mut assets = sealed.assets;
    assets.push(stats)?;
    Ok(Build {
        modules,
        groups,
        chunks,
        splits,
        assets,
    })
}

fn copied(alloc: Global, faults: &[Fault]) -> Result<Vec<Fault>, NoMemory>
    ensures { IfOk result (λ copy. copy.items ≡ faults.now) }
{
    let mut copy = Vec::new(alloc);
    for fault in faults {
        copy.push(fault.clone()?)?;
    }
    Ok(copy)
}

/// The faults in their order.
fn in_order(alloc: Global, faults: &[Fault]) -> Result<Seq<Fault>, NoMemory>
    ensures { IfOk result (λ ordered. ordered ≡ in_order faults.now) }
{
    let mut ordered = copied(alloc, faults)?;
    sort_faults(alloc, &mut ordered)?;
    Ok(Seq::from_vec(ordered))
}

/// The verdict of faults. More than an end can count don't fit in memory.
fn faulty(faults: Seq<Fault>) -> Result<Verdict, NoMemory>
    ensures value { IfOk result (λ verdict. verdict ≡ Verdict.Faults faults) }
    ensures reportable { IfOk result CanReport }
    ensures build { IfOk result IsOfBuild }
{
    if faults.as_slice().len() > u32::MAX as usize {
        return Err(AllocError);
    }
    Ok(Verdict::Faults(faults))
}

/// The verdict of a graph without faults.
fn sealed(
    alloc: Global,
    graph: &ModuleGraph,
    config: &Config,
    path: &str,
) -> Result<Verdict, NoMemory>
    requires fits { Fits (length config.now.entries) graph.now }
    requires no_faults { graph.now.faults ≡ [] }
    ensures value { IfOk result (IsGraphVerdict graph.now config.now path.now []) }
    ensures reportable { IfOk result CanReport }
    ensures build { IfOk result IsOfBuild }
{
    sealed_serves();
    match seal_by_one(alloc, graph, config, path) {
        Ok(sealed) => Ok(Verdict::Built(build(alloc, graph.count(), sealed)?)),
        Err(SealEnd::Faults(faults)) => faulty(faults),
        Err(SealEnd::Limit(limit)) => Ok(Verdict::Limit(limit)),
        Err(SealEnd::NoMemory) => Err(AllocError),
    }
}

pub(crate) fn outcome(
    alloc: Global,
    graph: &ModuleGraph,
    config: &Config,
    path: &str,
) -> Result<Verdict, NoMemory>
    requires { Fits (length config.now.entries) graph.now }
    ensures value { IfOk result (IsGraphVerdict graph.now config.now path.now graph.now.faults) }
    ensures reportable { IfOk result CanReport }
    ensures build { IfOk result IsOfBuild }
{
    match graph.faults() {
        [] => sealed(alloc, graph, config, path),
        faults => faulty(in_order(alloc, faults)?),
    }
}
