//! Which source a tally is of.
ghost use Rattle.std.specs.Prelude.{ℕ, ◌≡◌, ◌+◌};
ghost use Rattle.scm_results.specs.declared.naming.TheConstants.{MOST_TALLIES};

use std::marker::{Brand, PhantomData};
use std::sync::ledger::{Blank, Ledger};

/// The most tallies that a source gives.
pub const MOST_TALLIES: u32 = 65_536;

/// The name of one source, whose totals and tallies count together: the ledgers of what was taken and what was delivered, and
/// how many parts each is cut into. The call that makes the source picks it, with `Brand`, from the source's token.
pub trait Naming {
    ghost taken: { ℕ };

    ghost delivered: { ℕ };

    ghost parts: { ℕ };
}

impl Naming for Brand {
    ghost taken = { 0 };

    ghost delivered = { 0 };

    ghost parts = { 0 };
}

/// The ledger of the tasks that were taken.
pub struct Taken<B: Naming>(PhantomData<B>);

impl<B: Naming> Ledger for Taken<B> {
    ghost name = { B.taken };

    ghost parts = { B.parts };
}

/// The ledger of the outcomes that were delivered.
pub struct Delivered<B: Naming>(PhantomData<B>);

impl<B: Naming> Ledger for Delivered<B> {
    ghost name = { B.delivered };

    ghost parts = { B.parts };
}

/// Two new ledgers, which no source has yet.
#[derive(Drop)]
pub struct Token {
    pub taken: Blank,
    pub delivered: Blank,
    pub ghost taken_parts: { taken.parts ≡ MOST_TALLIES + 1 },
    pub ghost delivered_parts: { delivered.parts ≡ MOST_TALLIES + 1 },
}

impl Token {
    /// Two new ledgers.
    pub fn new() -> Token {
        let parts = u64::from(MOST_TALLIES) + 1;
        Token {
            taken: Blank::new(parts),
            delivered: Blank::new(parts),
        }
    }
}
