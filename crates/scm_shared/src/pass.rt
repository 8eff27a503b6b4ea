//! What a caller holds.
ghost use Rattle.std.specs.Prelude.{◌≡◌, ◌≤◌, length};

use crate::word::View;
use crate::{BookNaming, Made};
use atomic_table::Badge;
use std::marker::{Model, PhantomData};
use std::sync::ledger::Share;

/// The right to call a shared book as one session.
///
/// Contracts see what the pass knows: its number, its calls that became entries with their replies, the history that it has
/// seen, and a length that the history has reached. Calls and history are kept by its badge, in proofs alone.
#[derive(Drop)]
pub struct Pass<B: BookNaming> {
    pub(crate) number: u16,
    pub(crate) made: u64,
    pub(crate) front: u64,
    pub(crate) badge: Badge<View>,
    pub(crate) share: Share<Made<B>>,
    pub(crate) of: PhantomData<B>,
}

impl<B: BookNaming> Model for Pass<B> {
    ghost use Rattle.std.specs.Prelude.{◌≡◌, ◌≤◌, length};
    ghost use Rattle.scm_shared.specs.Passes.{Known, known};
    ghost use Rattle.scm_shared.specs.inner.Seats.{known_in, IsPassOf};

    ghost Value = { Known };

    ghost view = { λ p. known p.number (known_in p.badge.views).made (known_in p.badge.views).seen p.front };

    ghost invariant = { λ p.
        (p.badge.table_id ≡ B.table)
        × IsPassOf p.badge.views (known p.number (known_in p.badge.views).made (known_in p.badge.views).seen p.front)
        × (length (known_in p.badge.views).seen ≤ p.front)
        × (p.share.parts ≡ 1)
        × (p.share.amount ≡ p.made)
        × (p.made ≡ length (known_in p.badge.views).made) };
}

impl<B: BookNaming> Pass<B> {
    /// The session: from 0 on, in the order of entering.
    pub fn number(&self) -> u16
        ensures { result ≡ self.now.number }
    {
        self.number
    }

    /// How many calls became entries.
    pub fn made(&self) -> u64
        ensures { result ≡ length self.now.made }
    {
        self.made
    }

    /// A length that the journal has reached, as far as this pass was told. It has seen no more.
    pub fn seen(&self) -> u64
        ensures front { result ≡ self.now.front }
        ensures seen { length self.now.seen ≤ result }
    {
        self.front
    }
}
