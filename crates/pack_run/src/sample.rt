//! The build of a sample, by readers and a configuration of its own.
ghost use Rattle.std.specs.Prelude.{◌≡◌, ◌≤◌, Ok, IfOk};
ghost use Rattle.outside.specs.Cause.{Rose};
ghost use Rattle.pack_config.specs.Answer.{IsConfigAnswer};
ghost use Rattle.pack_run.specs.Report.{CanReport};
ghost use Rattle.pack_run.specs.Sample.{EndsSample, sample_config};
ghost use Rattle.pack_run.specs.inner.Sampled.{IsOnSample};
ghost use Rattle.tree_sample.specs.Sample.{sample};

use crate::decide_tree::decide_tree;
use crate::output::print_all;
use crate::report::end_of;
use crate::sample_line::sample_lines;
use crate::sample_readers::sample_readers;
use crate::{End, Verdict};
use graph_types::Config;
use json_order::laws::one_answer;
use outside::{LineSink, MemTree, OutsideEnd};
use pack_config::{ConfigEnd, read_config};
use pack_util::NoMemory;
use std::alloc::{AllocError, Global};
use std::thread::Threads;
use tree_sample::{SampleEnd, sample_tree};

/// Builds the sample of so many modules and prints its lines.
pub(crate) fn run_sample<L: LineSink, Rt: Threads + Sync>(
    rt: &Rt,
    alloc: Global,
    n: u32,
    workers: u32,
    lines: &mut L,
) -> End
    requires at_least { 1 ≤ n }
    requires at_most { n ≤ 20_000 }
    requires some { 1 ≤ workers }
    requires few { workers ≤ 32 }
    ensures ends { EndsSample n (L.view lines.old) (L.view lines.new) result }
    ensures line_cause { result ≡ End.LineFault → Rose (L.view lines.old).faults (L.view lines.new).faults }
{
    let decided = decide_sample(rt, alloc, n, workers);
    print_sample(alloc, n, decided, lines)
}

/// The verdict on the sample of so many modules.
fn decide_sample<Rt: Threads + Sync>(
    rt: &Rt,
    alloc: Global,
    n: u32,
    workers: u32,
) -> Result<Verdict, NoMemory>
    requires at_least { 1 ≤ n }
    requires at_most { n ≤ 20_000 }
    requires some { 1 ≤ workers }
    requires few { workers ≤ 32 }
    ensures verdict { IfOk result (IsOnSample n) }
    ensures reportable { IfOk result CanReport }
{
    let tree = tree_of(alloc, n)?;
    let config = sample_config(alloc)?;
    let mut readers = sample_readers(alloc, &tree, workers)?;
    match decide_tree(rt, alloc, &mut readers, workers, &config, "sample.json") {
        Ok(verdict) => Ok(verdict),
        Err(OutsideEnd::Failed) => unreachable!(),
        Err(OutsideEnd::NoMemory) => Err(AllocError),
    }
}

fn tree_of(alloc: Global, n: u32) -> Result<MemTree, NoMemory>
    requires at_least { 1 ≤ n }
    requires at_most { n ≤ 20_000 }
    ensures { IfOk result (λ tree. tree ≡ sample n) }
{
    match sample_tree(alloc, n) {
        Ok(tree) => Ok(tree),
        Err(SampleEnd::OutOfRange) => unreachable!(),
        Err(SampleEnd::NoMemory) => Err(AllocError),
    }
}

/// The configuration of each sample.
fn sample_config(alloc: Global) -> Result<Config, NoMemory>
    ensures { IfOk result (λ config. IsConfigAnswer sample_config (Ok config)) }
{
    one_answer();
    match read_config(alloc, b"{\"entry\":\"./src/m00000.js\"}") {
        Ok(config) => Ok(config),
        Err(ConfigEnd::Fault(_)) => unreachable!(),
        Err(ConfigEnd::NoMemory) => Err(AllocError),
    }
}

/// Prints the lines of the verdict.
fn print_sample<L: LineSink>(
    alloc: Global,
    n: u32,
    decided: Result<Verdict, NoMemory>,
    lines: &mut L,
) -> End
    requires verdict { IfOk decided (IsOnSample n) }
    requires reportable { IfOk decided CanReport }
    ensures ends { EndsSample n (L.view lines.old) (L.view lines.new) result }
    ensures line_cause { result ≡ End.LineFault → Rose (L.view lines.old).faults (L.view lines.new).faults }
{
    let Ok(verdict) = decided else {
        return End::NoMemory;
    };
    let Ok(texts) = sample_lines(alloc, n, &verdict) else {
        return End::NoMemory;
    };
    match print_all(alloc, lines, &texts) {
        Ok(()) => end_of(&verdict),
        Err(OutsideEnd::Failed) => End::LineFault,
        Err(OutsideEnd::NoMemory) => End::NoMemory,
    }
}
