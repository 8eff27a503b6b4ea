//! Scripts: what their lines ask of a book, the replies as text, and the run from bytes to bytes.
#![tactic(auto)]

mod answers;
mod arguments;
mod asking;
mod calls;
mod commands;
mod each;
mod ended;
mod fault;
mod findings;
mod group_answers;
mod group_ends;
mod groups;
mod jobs;
mod journal;
mod numbered;
mod port;
mod reading;
mod refutations;
mod replies;
mod run;
mod sessions;
mod shared_sessions;
mod with_workers;
mod words;

pub use answers::{MakeCalls, answer_line};
pub use calls::read_line;
pub use each::run_each;
pub use ended::Ended;
pub use fault::RunFault;
pub use findings::{Findings, RefusedLine};
pub use journal::write_journal;
pub use port::Port;
pub use replies::{Answer, write_reply};
pub use run::run_script;
pub use sessions::Sessions;
pub use with_workers::run_with_workers;
pub use words::line_name;
