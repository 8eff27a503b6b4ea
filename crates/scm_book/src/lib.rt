//! The book: the machine that holds the open traces, its calls, and their journal.
#![tactic(auto)]

mod book;
mod call;
mod copying;
mod cycle;
mod declarations;
mod entry;
mod event;
mod fixing;
mod journal;
mod known_schedules;
mod loan;
mod open_trace;
mod plan;
mod proposing;
mod question;
mod reply;
mod showing;
mod traces;

pub use book::Book;
pub use call::{Call, Decl};
pub use entry::Entry;
pub use event::{Event, run_events};
pub use loan::Loan;
pub use plan::{Outlook, Plan};
pub use reply::{Reply, Shown, Witness};
