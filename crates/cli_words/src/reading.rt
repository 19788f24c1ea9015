//! Words as the command that they name.
ghost use Rattle.std.specs.Prelude.{◌≡◌, map, string_bytes, option_copied, IfOk};
ghost use Rattle.cli_words.specs.Words.{AnswersWords};
ghost use Rattle.cli_words.specs.inner.Reading.{AnswersJob, build_of, job_with, named_job, sample_of, workers_in};

use crate::arguments::{Arguments, read_arguments};
use crate::number::number_of;
use crate::{Job, WordsEnd};
use pack_util::{NoMemory, Text};
use path_text::{PathEnd, normal};
use std::alloc::{AllocError, Global};

/// How many workers a command may have.
const MOST_WORKERS: u32 = 32;

/// How many modules a sample may have.
const MOST_MODULES: u32 = 20_000;

/// What the words behind the program's name ask for.
pub fn read_words(alloc: Global, words: &[String]) -> Result<Job, WordsEnd>
    ensures { AnswersWords (map string_bytes words.now) result }
{
    match read_job(alloc, words)? {
        Some(job) => Ok(job),
        None => Err(WordsEnd::Usage),
    }
}

fn read_job(alloc: Global, words: &[String]) -> Result<Option<Job>, NoMemory>
    ensures { IfOk result (AnswersJob (map string_bytes words.now)) }
{
    let [command, rest @ ..] = words else {
        return Ok(None);
    };
    let Some(arguments) = read_arguments(alloc, rest)? else {
        return Ok(None);
    };
    job_with(alloc, command.as_str(), arguments)
}

/// What a command's name and the words behind it ask for.
fn job_with(alloc: Global, command: &str, arguments: Arguments<'_>) -> Result<Option<Job>, NoMemory>
    ensures { IfOk result (λ job. job ≡ job_with command.now arguments.entry.word.now (option_copied arguments.entry.workers)) }
{
    let Some(workers) = workers_in(arguments.workers) else {
        return Ok(None);
    };
    named_job(alloc, command, arguments.word, workers)
}

/// A row for each command.
fn named_job(
    alloc: Global,
    command: &str,
    word: &str,
    workers: Option<u32>,
) -> Result<Option<Job>, NoMemory>
    ensures { IfOk result (λ job. job ≡ named_job command.now word.now workers) }
{
    match command {
        "build" => build(alloc, word, workers),
        "sample" => Ok(sample(word, workers)),
        _ => Ok(None),
    }
}

fn build(alloc: Global, word: &str, workers: Option<u32>) -> Result<Option<Job>, NoMemory>
    ensures { IfOk result (λ job. job ≡ build_of word.now workers) }
{
    match normal(alloc, word) {
        Ok(path) if path.is_empty() => Ok(None),
        Ok(path) => Ok(Some(Job::Build {
            config: Text::from_string(path),
            workers,
        })),
        Err(PathEnd::NoMemory) => Err(AllocError),
        Err(_) => Ok(None),
    }
}

fn sample(word: &str, workers: Option<u32>) -> Option<Job>
    ensures { result ≡ sample_of word.now workers }
{
    let n = number_of(word, 1, MOST_MODULES)?;
    Some(Job::Sample { n, workers })
}

/// The number of workers that a value of `--workers` gives, where it is allowed.
fn workers_in(value: Option<&str>) -> Option<Option<u32>>
    ensures { result ≡ workers_in (option_copied value.entry) }
{
    match value {
        None => Some(None),
        Some(value) => Some(Some(number_of(value, 1, MOST_WORKERS)?)),
    }
}
