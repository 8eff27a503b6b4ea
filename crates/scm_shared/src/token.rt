//! What a shared book is made of.
ghost use Rattle.std.specs.Prelude.{◌≡◌, ◌+◌, []};
ghost use Rattle.scm_sequences.specs.declared.limits.TheConstants.{MOST_SESSIONS};
ghost use Rattle.scm_shared.specs.inner.Seats.{IsKeeper};

use crate::word::{Law, View};
use atomic_table::{Seat, Table};
use scm_book::Entry;
use scm_results::Token;
use scm_sequences::{MOST_SESSIONS, NoMemory};
use std::alloc::Global;
use std::sync::ledger::Blank;

/// A length word with the seat of its book, and new ledgers, which no book has yet. It is made before the book, so that the
/// call that makes the book can pick the book's name from it.
#[derive(Drop)]
pub struct BookToken {
    pub totals: Token,
    pub made: Blank,
    pub table: Table<Entry, View, (), Law, Global>,
    pub(crate) seat: Seat<Entry, View>,
    pub ghost seats: { made.parts ≡ MOST_SESSIONS + 1 },
    pub ghost one_word: { table.shared.table_id.words ≡ 1 },
    pub ghost seated: { seat.table_id ≡ table.shared.table_id },
    pub ghost unused: { IsKeeper seat.me [] 0 },
}

impl BookToken {
    /// A word that has counted nothing.
    pub fn new(alloc: Global) -> Result<BookToken, NoMemory> {
        let (table, seat) = Table::of_words(alloc, &[0], &())?;
        Ok(BookToken {
            totals: Token::new(),
            made: Blank::new(MOST_SESSIONS as u64 + 1),
            table,
            seat,
        })
    }
}
