//! Which words the command line takes, and what they ask for.
ghost use Rattle.std.specs.Prelude.{◌≡◌, ◌≤◌, [], ◌∷◌, IfSome};
ghost use Rattle.clap.specs.Walk.{texts};
ghost use Rattle.std.specs.Str.{bytes_eq};
ghost use Rattle.scm_monitor.specs.declared.settings.TheConstants.{MOST_WORKERS};
ghost use Rattle.scm_monitor.specs.Program.{asked_for, nothing_asked, options_of, with_flag, with_words, with_workers, workers_of_word};

use crate::settings::{DEFAULT_WORKERS, MOST_WORKERS, Options};
use scm_cells::read_count;

/// What words ask for, each at most once.
#[derive(Clone, Copy, Debug, PartialEq, Eq)]
pub struct Switches {
    workers: Option<u8>,
    each: bool,
    check: bool,
    journal: bool,
}

/// Whether a word is this text.
fn is_word(word: &str, text: &str) -> bool
    ensures { result ≡ bytes_eq word.now text.now }
{
    word == text
}

/// The number of workers that a word says.
fn read_workers(word: &str) -> Option<u8>
    ensures read { result ≡ workers_of_word word.now }
    ensures few { IfSome result (λ n. n ≤ MOST_WORKERS) }
{
    let count = read_count(word.as_bytes())?;
    if count > u64::from(MOST_WORKERS) {
        return None;
    }
    Some(count as u8)
}

impl Switches {
    /// Nothing was asked for.
    fn nothing() -> Switches
        ensures { result ≡ nothing_asked }
    {
        Switches {
            workers: None,
            each: false,
            check: false,
            journal: false,
        }
    }

    /// So many workers too; `None` where their number was asked for before.
    fn with_workers(self, workers: u8) -> Option<Switches>
        requires { workers ≤ MOST_WORKERS }
        ensures with { result ≡ with_workers self workers }
        ensures few { IfSome result (λ asked. IfSome asked.workers (λ n. n ≤ MOST_WORKERS)) }
    {
        if self.workers.is_some() {
            return None;
        }
        Some(Switches {
            workers: Some(workers),
            ..self
        })
    }

    /// What this word asks for too; `None` where it asks for nothing, or was there before.
    fn with_flag(self, word: &str) -> Option<Switches>
        ensures with { result ≡ with_flag self word.now }
        ensures kept { IfSome result (λ asked. asked.workers ≡ self.workers) }
    {
        if is_word(word, "--each") && !self.each {
            return Some(Switches { each: true, ..self });
        }
        if is_word(word, "--check") && !self.check {
            return Some(Switches {
                check: true,
                ..self
            });
        }
        if is_word(word, "--journal") && !self.journal {
            return Some(Switches {
                journal: true,
                ..self
            });
        }
        None
    }

    /// What this word asks for too where it stands last, which `--` may.
    fn with_last(self, word: &str) -> Option<Switches>
        ensures with { result ≡ with_words self (word.now ∷ []) }
        ensures kept { IfSome result (λ asked. asked.workers ≡ self.workers) }
    {
        if is_word(word, "--") {
            return Some(self);
        }
        self.with_flag(word)
    }

    /// The options that this is.
    fn options(self) -> Options
        ensures { result ≡ asked_for self }
    {
        Options {
            workers: self.workers.unwrap_or(DEFAULT_WORKERS),
            each: self.each,
            check: self.check,
            journal: self.journal,
        }
    }
}

/// What the words ask for, where each of them is taken.
fn read_switches(words: &[&str]) -> Option<Switches>
    ensures read { result ≡ with_words nothing_asked (texts words.entry.now) }
    ensures few { IfSome result (λ asked. IfSome asked.workers (λ n. n ≤ MOST_WORKERS)) }
{
    let mut asked = Switches::nothing();
    let mut rest = words;
    'each: loop {
        match rest {
            [] => return Some(asked),
            [last] => return asked.with_last(last),
            [word, count, later @ ..] if is_word(word, "--workers") => {
                asked = asked.with_workers(read_workers(count)?)?;
                rest = later;
            }
            [word, later @ ..] => {
                asked = asked.with_flag(word)?;
                rest = later;
            }
        }
    }
}

/// The options that the words after the program's name ask for, or `None` where a word isn't taken.
pub fn read_options(words: &[&str]) -> Option<Options>
    ensures read { result ≡ options_of (texts words.entry.now) }
    ensures workers { IfSome result (λ options. options.workers ≤ MOST_WORKERS) }
{
    Some(read_switches(words)?.options())
}
