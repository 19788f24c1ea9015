//! What a build comes to, from its configuration on.
ghost use Rattle.std.specs.Prelude.{◌≡◌, ◌≤◌, length, IfOk};
ghost use Rattle.fault_place.specs.Place.{place_in};
ghost use Rattle.pack_run.specs.Report.{CanReport, IsOfBuild};
ghost use Rattle.pack_run.specs.inner.Decision.{Decides, DecidesAt};
ghost use Rattle.pack_run.specs.inner.Meanings.{Means, MeansGot};

use crate::Verdict;
use crate::decide_tree::decide_tree;
use crate::first::read_first;
use crate::steps::readers_keep;
use fault_place::{Place, place_at};
use graph_types::Config;
use outside::{OutsideEnd, ReadGot, TreeReader};
use pack_config::{ConfigEnd, ConfigFault, ConfigKind, read_config};
use pack_util::NoMemory;
use std::alloc::{AllocError, Global};
use std::thread::Threads;

/// What a configuration's text means: how to build, or a fault at a place.
#[derive(Drop)]
enum Meaning {
    Config(Config),
    Fault { place: Place, kind: ConfigKind },
}

/// What a build comes to by the configuration at a path, on the tree that so many of the readers read. The first reader
/// reads the configuration.
pub(crate) fn decide<R: TreeReader + Send, Rt: Threads + Sync>(
    rt: &Rt,
    alloc: Global,
    readers: &mut Vec<R>,
    workers: u32,
    path: &str,
) -> Result<Verdict, OutsideEnd>
    requires some { 1 ≤ workers }
    requires few { workers ≤ 32 }
    requires readers { workers ≤ length readers.old.items }
    ensures decides { Decides R.follows R.view readers.old.items readers.new.items result
        (λ tree. DecidesAt R.view path.now tree readers.old.items readers.new.items result) }
    ensures reportable { IfOk result CanReport }
    ensures build { IfOk result IsOfBuild }
{
    readers_keep(readers);
    let got = read_first(alloc, readers, path)?;
    match meaning_got(alloc, path, &got)? {
        Meaning::Config(config) => decide_tree(rt, alloc, readers, workers, &config, path),
        Meaning::Fault { place, kind } => Ok(Verdict::Config { place, kind }),
    }
}

/// What the text means that a read gave. One that was too long to be read is a fault at its first byte.
fn meaning_got(alloc: Global, path: &str, got: &ReadGot) -> Result<Meaning, NoMemory>
    ensures { IfOk result (MeansGot path.now got.now) }
{
    match got {
        ReadGot::Whole(text) => meaning_of(alloc, path, text.get()),
        ReadGot::TooLong => {
            let fault = ConfigFault {
                offset: 0,
                kind: ConfigKind::TooLong,
            };
            placed(alloc, path, b"", fault)
        }
    }
}

fn meaning_of(alloc: Global, path: &str, text: &[u8]) -> Result<Meaning, NoMemory>
    ensures { IfOk result (Means path.now text.now) }
{
    match read_config(alloc, text) {
        Ok(config) => Ok(Meaning::Config(config)),
        Err(ConfigEnd::Fault(fault)) => placed(alloc, path, text, fault),
        Err(ConfigEnd::NoMemory) => Err(AllocError),
    }
}

/// A fault of the configuration at its place. The line of an offset behind the text would be its last.
fn placed(alloc: Global, path: &str, text: &[u8], fault: ConfigFault) -> Result<Meaning, NoMemory>
    ensures { IfOk result (λ meaning. meaning ≡ Meaning.Fault (place_in path.now text.now fault.offset) fault.kind) }
{
    let end = text.len() as u64;
    let mut place = place_at(alloc, path, text, fault.offset.min(end))?;
    place.offset = fault.offset;
    Ok(Meaning::Fault {
        place,
        kind: fault.kind,
    })
}
