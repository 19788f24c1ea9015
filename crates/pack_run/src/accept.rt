//! Words as what they ask for, where there are readers for its workers.
ghost use Rattle.std.specs.Prelude.{◌≡◌, ◌≤◌, min, map, string_bytes, IfOk};
ghost use Rattle.pack_run.specs.inner.Tasks.{AnswersTask, AnswersWorkers, IsManned};

use crate::task::Task;
use cli_words::laws::one_job;
use cli_words::{Job, WordsEnd, read_words};
use std::alloc::Global;

/// How many workers a command has that doesn't say, where there are readers for as many.
const USUAL_WORKERS: u32 = 4;

/// What the words ask for over so many readers.
pub(crate) fn accept(alloc: Global, words: &[String], readers: usize) -> Result<Task, WordsEnd>
    requires { 1 ≤ readers }
    ensures answer { AnswersTask (map string_bytes words.now) readers result }
    ensures manned { IfOk result (IsManned readers) }
{
    one_job();
    match read_words(alloc, words)? {
        Job::Build { config, workers } => {
            let workers = manned(workers, readers)?;
            Ok(Task::Build { config, workers })
        }
        Job::Sample { n, workers } => {
            let workers = manned(workers, readers)?;
            Ok(Task::Sample { n, workers })
        }
    }
}

/// So many workers, or the usual number, where each has a reader.
fn manned(asked: Option<u32>, readers: usize) -> Result<u32, WordsEnd>
    ensures { AnswersWorkers asked readers result }
{
    let workers = asked.unwrap_or(usual(readers));
    if workers as usize > readers {
        return Err(WordsEnd::Usage);
    }
    Ok(workers)
}

fn usual(readers: usize) -> u32
    ensures { result ≡ min 4 readers }
{
    readers.min(USUAL_WORKERS as usize) as u32
}
