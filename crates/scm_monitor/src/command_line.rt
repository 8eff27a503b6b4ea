//! The command line: what it may hold, and its help.
ghost use Rattle.std.specs.Prelude.{◌≡◌, ◌⊎◌, ◌≤◌, false, None, Some, map, IfOk, IfErr, OnErr, IsErr, IsErrAnd};
ghost use Rattle.clap.specs.Words.{app_of, kind_of, rule_of};
ghost use Rattle.scm_monitor.specs.declared.settings.TheConstants.{MOST_WORKERS};
ghost use Rattle.scm_monitor.specs.Program.{check_rule, command_line, each_rule, help_rule, journal_rule, options_of, workers_rule, IsHelp, IsVersion, WordComesFirst};

use crate::settings::Options;
use crate::switches::read_options;
use clap::builder::ValueParser;
use clap::error::ErrorKind;
use clap::{Arg, ArgAction, Command, Error};
use std::alloc::Global;

/// What `--version` tells beside the program's name. A program that is compiled without its proofs says so in their place.
const VERSION: &str = "0.2.0, proved";

/// What the program is for.
const ABOUT: &str =
    "Tells whether what the processes of a concurrent program did is sequentially consistent.

It reads a script from standard input, one call a line, and writes one reply a line to standard output.";

/// The calls, each with an example line, at the end of the help.
const CALLS: &str =
    "The first word of a line is the session that makes the call. An example of each:
  a open t 2 100 x:w=0 y:d=?   a trace t: two processes, 100 situations at most, a cell of 32 bits that holds 0 at first,
                               and one of 64 bits; what that holds at first isn't known
  a claim t 0                  process 0 of t is the session's, which may then report for it
  a release t 0                and is nobody's again
  a do t 0 sw x 1              process 0 stored 1 in x (lw, ld, sd, amoadd.w .. and rw are reported so too)
  a mark t                     marks the present state; the reply has the mark's number
  a back t 0                   returns to mark 0
  a raise t 1000               raises the budget of situations
  a ask t                      is t consistent? (a ask t 0: as it stood at mark 0) If so, with a schedule; and
                               with y=7, where cell y must have held 7 at first
  a why t                      the same, with a refutation where it is not
  a cycle t                    a short refutation of any size of trace (a cycle t 0: at mark 0), or unknown
  a show t 0                   the operations of process 0
  a list                       the open traces
  a close t                    closes t
A line that begins with # is a comment. docs/LANGUAGE.md describes the language, with every reply and refusal.

Statuses: 0 the script ended, 1 reading or writing failed, 2 the command line is refused, 3 no memory; 4, 5 and 6 as
--check has them; 7 the journal isn't what the sessions were answered, which is an error of the monitor.";

/// What is said of words that clap would take and the program doesn't, as `--workers=2`.
const NUMBER_APART: &str =
    "the number of workers is a word of its own, of digits alone: --workers N";

/// The option for the number of workers, as it is described to clap.
fn workers_option<'a>(alloc: Global) -> Arg<'a>
    ensures rule { rule_of result ≡ workers_rule }
    ensures local { result.global ≡ false }
{
    Arg::new(alloc, "workers")
        .long("workers")
        .action(ArgAction::Set)
        .value_name("N")
        .value_parser(ValueParser::Unsigned(0, 16))
        .help(
            "Run N workers beside the script, 0 to 16, which look for situations ahead of questions; else 2",
        )
}

/// The option for a thread for each session.
fn each_option<'a>(alloc: Global) -> Arg<'a>
    ensures rule { rule_of result ≡ each_rule }
    ensures local { result.global ≡ false }
{
    Arg::new(alloc, "each")
        .long("each")
        .action(ArgAction::SetTrue)
        .help(
            "Read the script whole, and run the lines of each session in a thread of their own; replies come in groups",
        )
}

/// The option for a status that tells what was found.
fn check_option<'a>(alloc: Global) -> Arg<'a>
    ensures rule { rule_of result ≡ check_rule }
    ensures local { result.global ≡ false }
{
    Arg::new(alloc, "check")
        .long("check")
        .action(ArgAction::SetTrue)
        .help(
            "Tell the worst by the status: 4 a line was refused, 5 inconsistent, 6 undecided, else 0",
        )
}

/// The option for the journal.
fn journal_option<'a>(alloc: Global) -> Arg<'a>
    ensures rule { rule_of result ≡ journal_rule }
    ensures local { result.global ≡ false }
{
    Arg::new(alloc, "journal")
        .long("journal")
        .action(ArgAction::SetTrue)
        .help("Write the journal after the replies: each call's place, session, number and reply")
}

/// The option for the help.
fn help_option<'a>(alloc: Global) -> Arg<'a>
    ensures rule { rule_of result ≡ help_rule }
    ensures local { result.global ≡ false }
{
    Arg::new(alloc, "help")
        .short('h')
        .long("help")
        .action(ArgAction::Help)
        .help("Print this help")
}

/// The command line as it is described to clap.
fn command<'a>(alloc: Global) -> Result<Command<'a>, Error>
    ensures described { IfOk result (λ command. app_of command ≡ command_line) }
    ensures memory { IfErr result (λ error. kind_of error ≡ ErrorKind.OutOfMemory) }
{
    Ok(
        Command::new(alloc, "scm_monitor")
            .no_binary_name(true)
            .disable_help_flag(true)
            .version(VERSION)
            .about(ABOUT)
            .after_help(CALLS)
            .arg(workers_option(alloc))?
            .arg(each_option(alloc))?
            .arg(check_option(alloc))?
            .arg(journal_option(alloc))?
            .arg(help_option(alloc))?,
    )
}

/// What clap has to say to words that ask for no run: the help, the version, or what is wrong with them.
fn refuse<'a>(alloc: Global, words: &'a [&'a str]) -> Result<Options, Error>
    ensures err { IsErr result }
    ensures help { WordComesFirst IsHelp (map (λ word. word.now) words.entry.now)
        → IsErrAnd result (λ error. (kind_of error ≡ ErrorKind.DisplayHelp) ⊎ (kind_of error ≡ ErrorKind.OutOfMemory)) }
    ensures version { WordComesFirst IsVersion (map (λ word. word.now) words.entry.now)
        → IsErrAnd result (λ error. (kind_of error ≡ ErrorKind.DisplayVersion) ⊎ (kind_of error ≡ ErrorKind.OutOfMemory)) }
{
    let mut command = command(alloc)?;
    command.try_get_matches_from_mut(words)?;
    Err(command.error(ErrorKind::InvalidValue, NUMBER_APART)?)
}

/// Reads the words after the program's name: the options that they ask for, where each word is taken. `--help` and
/// `--version` are answered by an error whose text is the help or the version, whatever stands behind them; any other word
/// is answered by an error that says what is wrong with it.
pub fn options<'a>(alloc: Global, words: &'a [&'a str]) -> Result<Options, Error>
    ensures taken { IfOk result (λ options. options_of (map (λ word. word.now) words.entry.now) ≡ Some options) }
    ensures refused { OnErr result (options_of (map (λ word. word.now) words.entry.now) ≡ None) }
    ensures workers { IfOk result (λ options. options.workers ≤ MOST_WORKERS) }
    ensures help { WordComesFirst IsHelp (map (λ word. word.now) words.entry.now)
        → IsErrAnd result (λ error. (kind_of error ≡ ErrorKind.DisplayHelp) ⊎ (kind_of error ≡ ErrorKind.OutOfMemory)) }
    ensures version { WordComesFirst IsVersion (map (λ word. word.now) words.entry.now)
        → IsErrAnd result (λ error. (kind_of error ≡ ErrorKind.DisplayVersion) ⊎ (kind_of error ≡ ErrorKind.OutOfMemory)) }
{
    match read_options(words) {
        Some(options) => Ok(options),
        None => refuse(alloc, words),
    }
}
