//! Which book it is.

use scm_results::Naming;
use std::marker::{Brand, PhantomData};
use std::sync::ledger::Ledger;

/// The name of one shared book: the table of its length word, and the ledger of the calls that its passes made. The call
/// that makes the book picks it, with `Brand`, from the book's token.
pub trait BookNaming: Naming {
    ghost use Rattle.std.specs.Prelude.{ℕ};
    ghost use Rattle.atomic_table.specs.Seated.{TableId};

    ghost table: { TableId };

    ghost made: { ℕ };

    ghost seats: { ℕ };
}

impl BookNaming for Brand {
    ghost use Rattle.scm_shared.specs.inner.Seats.{no_table};

    ghost table = { no_table };

    ghost made = { 0 };

    ghost seats = { 0 };
}

/// The ledger of the calls that became entries.
pub struct Made<B: BookNaming>(PhantomData<B>);

impl<B: BookNaming> Ledger for Made<B> {
    ghost name = { B.made };

    ghost parts = { B.seats };
}
