//! The entries of the journal.

use crate::{Call, Reply};

/// A session's call and the reply to it.
#[derive(Drop, Debug)]
pub struct Entry {
    pub session: u16,
    /// How many earlier entries are of this session.
    pub number: u64,
    pub call: Call,
    pub reply: Reply,
}
