//! The limits of the product, each under its name. They are this project's profile.

/// The most traces that are open at once.
pub const MOST_TRACES: usize = 64;

/// The most processes of a trace; each trace has at least one.
pub const MOST_PROCESSES: usize = 32;

/// The most cells of a trace; each trace has at least one.
pub const MOST_CELLS: usize = 64;

/// The most operations of one process.
pub const MOST_OPERATIONS: usize = 1_000_000;

/// The most marks of a trace.
pub const MOST_MARKS: usize = 64;

/// The greatest budget of a trace, in situations; the least is 1.
pub const MOST_SITUATIONS: usize = 1_000_000;

/// The most sessions that are entered.
pub const MOST_SESSIONS: usize = 256;

/// The most entries of a journal.
pub const MOST_ENTRIES: usize = 1_048_576;

/// The most bytes of a name; each name has at least one.
pub const LONGEST_NAME: usize = 32;

/// The most bytes of a line of a script, without its line feed.
pub const LONGEST_LINE: usize = 4_096;

/// The most reads of one port.
pub const MOST_READS: u64 = 1_099_511_627_776;
