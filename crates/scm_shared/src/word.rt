//! The rule of the length word, and its kinds of step.

use atomic_table::{Join, Play, Split, TableRule};
use scm_book::Entry;
use std::marker::Model;

/// What a seat of the word's table knows. No value of it is made.
pub struct View {
    nothing: (),
}

impl Model for View {
    ghost use Rattle.scm_shared.specs.inner.Rule.{SeatView, nobody};

    ghost Value = { SeatView };

    ghost view = { λ v. nobody };
}

/// The word is the length of the history, and what every seat knows fits it.
pub struct Law;

impl TableRule<Entry, View, ()> for Law {
    ghost use Rattle.std.specs.Prelude.{[]};
    ghost use Rattle.scm_shared.specs.inner.Rule.{keeper, HasOneHistory};

    ghost holds = { λ _. λ s. HasOneHistory s.words s.views };

    ghost first = { λ _. keeper [] 0 [] };
}

/// A new pass's seat is split off the book's.
pub struct Enters;

impl Split<View> for Enters {
    ghost use Rattle.scm_shared.specs.inner.Steps.{with_one_more, next_newcomer};

    ghost left = { with_one_more };

    ghost right = { next_newcomer };
}

/// A seat is joined to another.
pub struct Takes;

impl Join<View> for Takes {
    ghost use Rattle.scm_shared.specs.inner.Rule.{nobody};
    ghost use Rattle.scm_shared.specs.inner.Steps.{both};

    ghost both = { both };

    ghost spent = { nobody };
}

/// The seat of the last pass is parted from another.
pub struct Parts;

impl Split<View> for Parts {
    ghost use Rattle.scm_shared.specs.inner.Steps.{staying, parted};

    ghost left = { staying };

    ghost right = { parted };
}

/// The word counts an entry.
pub struct Commits;

impl Play<Entry, View> for Commits {
    ghost use Rattle.scm_shared.specs.inner.Steps.{TellsCommit};

    ghost then = { TellsCommit };
}

/// The book's seat shows the passes in it the whole history.
pub struct Learns;

impl Play<Entry, View> for Learns {
    ghost use Rattle.scm_shared.specs.inner.Steps.{TellsHistory};

    ghost then = { TellsHistory };
}

/// A seat of passes looks at the word.
pub struct Fronts;

impl Play<Entry, View> for Fronts {
    ghost use Rattle.scm_shared.specs.inner.Steps.{TellsFront};

    ghost then = { TellsFront };
}
