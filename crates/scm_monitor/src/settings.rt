//! What the words of the command line ask for.

/// The most workers that the program runs beside a script.
pub const MOST_WORKERS: u8 = 16;

/// How many workers run beside a script where no word says it.
pub const DEFAULT_WORKERS: u8 = 2;

/// What the program is to do.
#[derive(Clone, Copy, Debug, PartialEq, Eq)]
pub struct Options {
    /// How many workers run beside the script: 0 to `MOST_WORKERS`.
    pub workers: u8,
    /// Whether the lines of each session run in a thread of their own.
    pub each: bool,
    /// Whether the status tells the worst that was found.
    pub check: bool,
    /// Whether the journal is written after the replies.
    pub journal: bool,
}
