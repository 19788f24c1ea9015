ghost use Rattle.std.specs.Prelude.{◌<◌, ◌≤◌, map, string_bytes, vec_len};
ghost use Rattle.pack_run.specs.Last.{TriesLast, TriesLine};
ghost use Rattle.pack_run.specs.Run.{Promise};
ghost use Rattle.pack_run.specs.inner.Carried.{Carries};

use crate::accept::accept;
use crate::conclude::conclude;
use crate::decide::decide;
use crate::report::report;
use crate::sample::run_sample;
use crate::steps::readers_keep;
use crate::task::Task;
use crate::{End, Verdict};
use cli_words::WordsEnd;
use cli_words::laws::one_job;
use outside::{AssetSink, LineSink, TreeReader};
use std::alloc::Global;
use std::thread::Threads;

/// Carries out a command, but for the line of an end that tells no verdict.
fn carry_out<R: TreeReader + Send, S: AssetSink, L: LineSink, Rt: Threads + Sync>(
    rt: &Rt,
    alloc: Global,
    words: &[String],
    readers: &mut Vec<R>,
    sink: &mut S,
    lines: &mut L,
) -> End
    requires { 0 < vec_len readers.old }
    ensures { Carries R.follows R.view (map string_bytes words.now) readers.old.items readers.new.items
        (S.view sink.old) (S.view sink.new) (L.view lines.old) (L.view lines.new) result }
{
    one_job();
    readers_keep(readers);
    match accept(alloc, words, readers.len()) {
        Ok(Task::Build { config, workers }) => {
            let decided = decide(rt, alloc, readers, workers, config.get());
            conclude(alloc, decided, sink, lines)
        }
        Ok(Task::Sample { n, workers }) => run_sample(rt, alloc, n, workers, lines),
        Err(WordsEnd::Usage) => report(alloc, &Verdict::Usage, sink, lines),
        Err(WordsEnd::NoMemory) => End::NoMemory,
    }
}

/// Tries the line of an end that has no verdict.
fn last_line<L: LineSink>(alloc: Global, end: End, lines: &mut L)
    ensures tries { TriesLast end (L.view lines.old) (L.view lines.new) }
    ensures never_falls { (L.view lines.old).faults ≤ (L.view lines.new).faults }
{
    match end {
        End::ReadFault => try_line(alloc, b"read failed", lines),
        End::WriteFault => try_line(alloc, b"write failed", lines),
        End::NoMemory => try_line(alloc, b"no memory", lines),
        _ => {}
    }
}

fn try_line<L: LineSink>(alloc: Global, text: &[u8], lines: &mut L)
    ensures tries { TriesLine text.now (L.view lines.old) (L.view lines.new) }
    ensures never_falls { (L.view lines.old).faults ≤ (L.view lines.new).faults }
{
    match lines.line(alloc, text) {
        Ok(()) => {}
        Err(_) => {}
    }
}

/// Carries out a command.
///
/// The words are `build` and the path of the configuration, or `sample` and how many modules, and what else the grammar of
/// words allows. All that a build reads lies under the root that the readers read; the first of them reads the
/// configuration and lists the tree, and each worker reads modules by a reader of its own. The assets go to the sink in
/// order, and the lines of the end to `lines`. A sample has readers of its own, and puts nothing.
#[tactic(auto, using(crate::proofs::Promises::finished))]
pub fn run<R: TreeReader + Send, S: AssetSink, L: LineSink, Rt: Threads + Sync>(
    rt: &Rt,
    alloc: Global,
    words: &[String],
    readers: &mut Vec<R>,
    sink: &mut S,
    lines: &mut L,
) -> End
    requires { 0 < vec_len readers.old }
    ensures { Promise R.follows R.view (map string_bytes words.now) readers.old.items readers.new.items
        (S.view sink.old) (S.view sink.new) (L.view lines.old) (L.view lines.new) result }
{
    one_job();
    let end = carry_out(rt, alloc, words, readers, sink, lines);
    last_line(alloc, end, lines);
    end
}
