//! What is to be done before a call is made.

use crate::Reply;
use crate::loan::Loan;

/// What is known of the answer to a call that is made at once.
#[derive(Drop, Debug)]
pub enum Outlook {
    /// Nothing, also where the call asks no question.
    Unknown,
    /// The set has it or is near to it, so that no schedule is looked for. Nothing rests on it.
    Near,
    /// A known schedule is the reply.
    Known(Reply),
}

/// What `Book::plan` finds of a call.
#[derive(Drop, Debug)]
pub enum Plan {
    /// It is to be made at once, with what is known of its answer.
    Ready(Outlook),
    /// It asks a question whose set is lent, and does well to wait until that is back.
    Waits,
    /// It asks a question that is likely to take long, to be searched with no book at hand before the call is made.
    Long(Loan),
}
