//! The book that threads share: one legal history, as each caller saw it.
#![tactic(auto)]

mod audit;
mod caller_counts;
mod length_word;
mod loans;
mod locked;
mod naming;
mod pass;
mod shared_book;
mod token;
mod word;

pub use audit::Audit;
pub use naming::{BookNaming, Made};
pub use pass::Pass;
pub use shared_book::SharedBook;
pub use token::BookToken;
