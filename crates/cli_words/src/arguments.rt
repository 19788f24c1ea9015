//! The words behind a command's name, read by `clap`.
//!
//! `clap` knows one option and one positional word. A value that begins with `-`, other than `-` alone, it takes only behind
//! `=`, where the grammar takes any; no such value is a number, so words that `clap` refuses are no command's.
ghost use Rattle.std.specs.Prelude.{◌≡◌, false, map, string_bytes, option_copied, IfOk};
ghost use Rattle.clap.specs.Words.{app_of, found_of, rule_of};
ghost use Rattle.cli_words.specs.inner.Arguments.{AnswersArguments, IsRead, words_app, word_rule, workers_rule};

use clap::error::ErrorKind;
use clap::{Arg, ArgAction, ArgMatches, Command};
use pack_util::NoMemory;
use std::alloc::{AllocError, Global};

/// What the words behind a command's name give: one positional word, and a value of `--workers` where there is one.
#[derive(Clone, Copy)]
pub(crate) struct Arguments<'a> {
    pub(crate) word: &'a str,
    pub(crate) workers: Option<&'a str>,
}

/// What words give, where a command may have them.
pub(crate) fn read_arguments<'a>(
    alloc: Global,
    words: &'a [String],
) -> Result<Option<Arguments<'a>>, NoMemory>
    ensures { IfOk result (AnswersArguments (map string_bytes words.now)) }
{
    match command(alloc)?.try_get_matches_from(words) {
        Ok(matches) => Ok(found_in(&matches)),
        Err(error) if error.kind() == ErrorKind::OutOfMemory => Err(AllocError),
        Err(_) => Ok(None),
    }
}

/// What all commands may have behind their names.
fn command<'a>(alloc: Global) -> Result<Command<'a>, AllocError>
    ensures { IfOk result (λ command. app_of command ≡ words_app) }
{
    Command::new(alloc, "words")
        .no_binary_name(true)
        .disable_help_flag(true)
        .arg(workers_option(alloc))?
        .arg(positional(alloc))
}

fn workers_option<'a>(alloc: Global) -> Arg<'a>
    ensures rule { rule_of result ≡ workers_rule }
    ensures local { result.global ≡ false }
{
    Arg::new(alloc, "workers")
        .long("workers")
        .action(ArgAction::Set)
}

fn positional<'a>(alloc: Global) -> Arg<'a>
    ensures rule { rule_of result ≡ word_rule }
    ensures local { result.global ≡ false }
{
    Arg::new(alloc, "word").action(ArgAction::Set)
}

fn found_in<'a>(matches: &ArgMatches<'a>) -> Option<Arguments<'a>>
    ensures { IsRead (found_of matches.now) result }
{
    let word = matches.get_str("word")?;
    Some(Arguments {
        word,
        workers: matches.get_str("workers"),
    })
}
