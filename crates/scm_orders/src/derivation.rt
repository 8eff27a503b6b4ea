//! Derivations: short refutations, line by line.
ghost use Rattle.std.specs.Prelude.{◌≡◌, ◌↔◌, IsTrue};
ghost use Rattle.scm_orders.specs.Facts.{order_of, IsContradiction};
ghost use Rattle.scm_orders.specs.Refuting.{hints_of};

use crate::Place;

/// How many hints a line may have, but for one that is joined or left by a lemma.
pub const MOST_HINTS: u32 = 255;

/// What a line says of every legal schedule.
#[derive(Clone, Copy, Debug, PartialEq, Eq)]
pub enum Fact {
    /// The one operation stands before the other.
    Before { from: Place, to: Place },
    /// The read sees this write.
    Sees { write: Place, read: Place },
    /// The read sees first contents.
    SeesFirst { read: Place },
    /// Another write of the cell stands between the write and the read: so the read sees neither the write nor an earlier
    /// one of its process.
    Hidden { write: Place, read: Place },
    /// The read doesn't see this write.
    Unseen { write: Place, read: Place },
    /// The read doesn't see first contents.
    UnseenFirst { read: Place },
}

/// Why a fact follows from the trace and from the facts of its hints.
#[derive(Clone, Copy, Debug, PartialEq, Eq)]
pub enum Rule {
    /// The hints lead from the one operation to the other, one after the other, by the order of processes between them.
    /// With no hints both are of one process, in this order.
    Joined,
    /// `by` writes the cell that is read, and stands between the write and the read.
    Hidden { by: Place },
    /// Nothing else is left that the read can see.
    Source,
    /// What is left for the second operation to see is the first one, or comes after it.
    AfterAll,
    /// What is left for the first operation to see comes before the second one, another write of the cell.
    BeforeAll,
    /// The second operation is what a read sees, and the first one, another write of the cell, stands before that read.
    AfterSource,
    /// It is supposed: a case, for the lines of its block.
    Assumed,
    /// The block that ends at line `end` is closed: what it supposes isn't all so. By the hints all of it is but one, and
    /// the fact is that one's negation.
    Lemma { end: u32 },
}

/// A line: what it says, and why. Its hints are numbers of earlier lines: those of its derivation from `first` on, as many
/// as `count` says. `block` is the number of the first line of its block, `None` where it stands outside of blocks.
#[derive(Clone, Copy, Debug, PartialEq, Eq)]
pub struct Line {
    pub fact: Fact,
    pub rule: Rule,
    pub first: u32,
    pub count: u32,
    pub block: Option<u32>,
}

impl Line {
    /// The hints of this line, among those of its derivation: those that are there.
    pub fn hints_in(self, hints: &[u32]) -> &[u32]
        ensures { result.now ≡ hints_of hints.now self }
    {
        let start = self.first as usize;
        let end = start + self.count as usize;
        &hints[start.min(hints.len())..end.min(hints.len())]
    }
}

/// Lines, each of which is to follow from the trace and from earlier lines, and the hints of all of them.
#[derive(Debug, PartialEq, Eq, Drop)]
pub struct Derivation {
    pub lines: Vec<Line>,
    pub hints: Vec<u32>,
}

impl Fact {
    /// The two operations that it puts in an order, if it does.
    pub(crate) fn order(self) -> Option<(Place, Place)>
        ensures { result ≡ order_of self }
    {
        match self {
            Fact::Before { from, to } => Some((from, to)),
            Fact::Sees { write, read } | Fact::Hidden { write, read } => Some((write, read)),
            Fact::SeesFirst { .. } | Fact::Unseen { .. } | Fact::UnseenFirst { .. } => None,
        }
    }

    /// Whether it puts an operation before itself, by the order of processes.
    pub(crate) fn is_contradiction(self) -> bool
        ensures { IsTrue result ↔ IsContradiction self }
    {
        match self.order() {
            Some((from, to)) => to.is_up_to(from),
            None => false,
        }
    }
}
