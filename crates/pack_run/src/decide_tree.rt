//! What a tree comes to by a configuration.
ghost use Rattle.std.specs.Prelude.{◌≡◌, ◌≤◌, length, IfOk};
ghost use Rattle.graph_types.specs.Fits.{Fits};
ghost use Rattle.tree_listing.specs.Listing.{IsListingOf};
ghost use Rattle.pack_run.specs.Report.{CanReport, IsOfBuild};
ghost use Rattle.pack_run.specs.Verdict.{IsMade, IsTreeVerdict};
ghost use Rattle.pack_run.specs.inner.Decision.{Decides, DecidesOn};
ghost use Rattle.pack_run.specs.inner.Stop.{ComesOf, unlisted};

use crate::Verdict;
use crate::first::list_first;
use crate::outcome::outcome;
use crate::steps::readers_keep;
use graph_types::Config;
use make_rounds::{Grown, MakeEnd, make};
use module_build::laws::one_record;
use outside::{OutsideEnd, TreeReader};
use std::alloc::Global;
use std::thread::Threads;
use tree_listing::{ListEnd, Listing};

/// What a tree comes to that so many of the readers read: the limits of the tree, and then its modules. The first reader
/// lists the tree.
pub(crate) fn decide_tree<R: TreeReader + Send, Rt: Threads + Sync>(
    rt: &Rt,
    alloc: Global,
    readers: &mut Vec<R>,
    workers: u32,
    config: &Config,
    path: &str,
) -> Result<Verdict, OutsideEnd>
    requires some { 1 ≤ workers }
    requires few { workers ≤ 32 }
    requires readers { workers ≤ length readers.old.items }
    ensures decides { Decides R.follows R.view readers.old.items readers.new.items result
        (λ tree. DecidesOn R.view (IsTreeVerdict tree path.now config.now) tree readers.old.items readers.new.items result) }
    ensures reportable { IfOk result CanReport }
    ensures build { IfOk result IsOfBuild }
{
    readers_keep(readers);
    match list_first(alloc, readers) {
        Ok(listing) => decide_made(rt, alloc, readers, workers, &listing, config, path),
        Err(end) => unlisted(end),
    }
}

/// What the modules come to, once the tree is listed.
fn decide_made<R: TreeReader + Send, Rt: Threads + Sync>(
    rt: &Rt,
    alloc: Global,
    readers: &mut Vec<R>,
    workers: u32,
    listing: &Listing,
    config: &Config,
    path: &str,
) -> Result<Verdict, OutsideEnd>
    requires some { 1 ≤ workers }
    requires few { workers ≤ 32 }
    requires readers { workers ≤ length readers.old.items }
    ensures decides { Decides R.follows R.view readers.old.items readers.new.items result
        (λ tree. IsListingOf tree listing.now → DecidesOn R.view (IsMade tree config.now path.now) tree readers.old.items readers.new.items result) }
    ensures reportable { IfOk result CanReport }
    ensures build { IfOk result IsOfBuild }
{
    one_record();
    let made = make(rt, alloc, readers, workers, listing, config, path);
    of_made(alloc, made, config, path)
}

/// What the graph comes to that was made.
fn of_made(
    alloc: Global,
    made: Result<Grown, MakeEnd>,
    config: &Config,
    path: &str,
) -> Result<Verdict, OutsideEnd>
    requires { IfOk made (λ grown. Fits (length config.now.entries) grown.graph) }
    ensures comes { ComesOf config.now path.now made result }
    ensures reportable { IfOk result CanReport }
    ensures build { IfOk result IsOfBuild }
{
    match made {
        Ok(grown) => Ok(outcome(alloc, &grown.graph, config, path)?),
        Err(MakeEnd::Limit(limit)) => Ok(Verdict::Limit(limit)),
        Err(MakeEnd::ReadFault) => Err(OutsideEnd::Failed),
        Err(MakeEnd::NoMemory) => Err(OutsideEnd::NoMemory),
    }
}

/// What a tree comes to that wasn't listed.
fn unlisted(end: ListEnd) -> Result<Verdict, OutsideEnd>
    ensures value { result ≡ unlisted end }
    ensures reportable { IfOk result CanReport }
    ensures build { IfOk result IsOfBuild }
{
    match end {
        ListEnd::Limit(limit) => Ok(Verdict::Limit(limit)),
        ListEnd::Failed => Err(OutsideEnd::Failed),
        ListEnd::NoMemory => Err(OutsideEnd::NoMemory),
    }
}
