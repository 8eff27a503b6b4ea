//! What one worker took and delivered.
ghost use Rattle.std.specs.Prelude.{◌≡◌};

use crate::{Delivered, Naming, Taken};
use std::marker::Model;
use std::sync::ledger::Share;

/// One worker's or collector's own share of what was taken from a source and delivered to it. Contracts see it as two numbers.
#[derive(Drop)]
pub struct Tally<B: Naming> {
    pub(crate) taken: u64,
    pub(crate) delivered: u64,
    pub(crate) of_taken: Share<Taken<B>>,
    pub(crate) of_delivered: Share<Delivered<B>>,
}

impl<B: Naming> Model for Tally<B> {
    ghost use Rattle.std.specs.Prelude.{◌≡◌};
    ghost use Rattle.scm_results.specs.Tallies.{Counted};

    ghost Value = { Counted };

    ghost view = { λ t. record { taken = t.taken; delivered = t.delivered } };

    ghost invariant = { λ t. (t.of_taken.parts ≡ 1) × (t.of_taken.amount ≡ t.taken) × (t.of_delivered.parts ≡ 1) × (t.of_delivered.amount ≡ t.delivered) };
}

impl<B: Naming> Tally<B> {
    /// How many tasks were taken with it.
    pub fn taken(&self) -> u64
        ensures { result ≡ self.now.taken }
    {
        self.taken
    }

    /// How many outcomes were delivered with it.
    pub fn delivered(&self) -> u64
        ensures { result ≡ self.now.delivered }
    {
        self.delivered
    }
}
