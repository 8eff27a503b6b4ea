//! The length word beside the lock, and all that is done with it.
ghost use Rattle.std.specs.Prelude.{◌≡◌, ◌+◌, ◌≤◌, ◌⊎◌, [], ◌∷◌, ◌++◌, true, length, map};
ghost use mathlib.Core.List.{IsPrefix};
ghost use Rattle.scm_book.specs.Machine.{EntryData, entry_data};
ghost use Rattle.scm_shared.specs.Passes.{newcomer, at_front};
ghost use Rattle.scm_shared.specs.inner.Rule.{holder, FitsHistory, AllFitHistory, AllGiven, AreDifferent};
ghost use Rattle.scm_shared.specs.inner.Steps.{both, staying, parted, caught_up, called};
ghost use Rattle.scm_shared.specs.inner.Seats.{known_in, IsPassOf, HasPass, IsKeeper, IsBooks};

use crate::BookNaming;
use crate::word::{Commits, Enters, Fronts, Law, Learns, Parts, Takes, View};
use atomic_table::{Badge, Seat, Table};
use scm_book::Entry;
use std::alloc::Global;
use std::marker::PhantomData;
use std::mem;

/// The table of the word. The book has a seat of it, and each pass a badge.
#[derive(Drop)]
pub(crate) struct LengthWord<B: BookNaming> {
    table: Table<Entry, View, (), Law, Global>,
    of: PhantomData<B>,
    ghost named: { table.shared.table_id ≡ B.table },
    ghost one_word: { table.shared.table_id.words ≡ 1 },
}

impl<B: BookNaming> LengthWord<B> {
    /// The table under its name.
    pub(crate) fn new(table: Table<Entry, View, (), Law, Global>) -> LengthWord<B>
        requires named { table.shared.table_id ≡ B.table }
        requires one_word { table.shared.table_id.words ≡ 1 }
    {
        LengthWord {
            table,
            of: PhantomData,
        }
    }

    /// The badge of a new pass.
    pub(crate) fn admit(&self, seat: &mut Seat<Entry, View>) -> Badge<View>
        requires seat { (seat.old.table_id ≡ B.table) × IsBooks seat.old.me }
        ensures seat { (seat.new.table_id ≡ B.table) × IsKeeper seat.new.me seat.old.me.0.log (seat.old.me.0.entered + 1) }
        ensures badge { (result.table_id ≡ B.table) × IsPassOf result.views (newcomer seat.old.me.0.entered) }
    {
        self.table.shared.split_seat::<Enters>(seat).into_badge()
    }

    /// The word counts an entry of the pass, whose length of the journal is `count`. The pass has seen all then.
    fn commit(
        &self,
        seat: &mut Seat<Entry, View>,
        badge: &mut Badge<View>,
        entry: &Entry,
        count: u64,
    )
        requires seat { (seat.old.table_id ≡ B.table) × IsBooks seat.old.me }
        requires badge { (badge.old.table_id ≡ B.table) × HasPass badge.old.views }
        requires own { entry.now.session ≡ (known_in badge.old.views).number }
        requires count { count ≡ length seat.old.me.0.log + 1 }
        ensures seat { (seat.new.table_id ≡ B.table) × IsKeeper seat.new.me (seat.old.me.0.log ++ entry_data entry.now ∷ []) seat.old.me.0.entered }
        ensures badge { (badge.new.table_id ≡ B.table) × IsPassOf badge.new.views (called (entry_data entry.now) (seat.old.me.0.log ++ entry_data entry.now ∷ []) (known_in badge.old.views)) }
        ensures fits { FitsHistory seat.old.me.0.log (known_in badge.old.views) }
    {
        self.join(seat, badge);
        self.table
            .shared
            .compare_exchange_with::<Commits>(seat, 0, count - 1, count, entry);
        *badge = self.part(seat);
    }

    /// The word counts the entry of the pass that stands last in the journal. The pass has seen all then. Gives how many there
    /// are.
    pub(crate) fn commit_last(
        &self,
        seat: &mut Seat<Entry, View>,
        badge: &mut Badge<View>,
        entries: &[Entry],
    ) -> u64
        requires seat { (seat.old.table_id ≡ B.table) × IsBooks seat.old.me }
        requires badge { (badge.old.table_id ≡ B.table) × HasPass badge.old.views }
        requires last { (last : EntryData) × (map entry_data entries.now ≡ seat.old.me.0.log ++ last ∷ []) × (last.session ≡ (known_in badge.old.views).number) }
        ensures count { result ≡ length entries.now }
        ensures seat { (seat.new.table_id ≡ B.table) × IsKeeper seat.new.me (map entry_data entries.now) seat.old.me.0.entered }
        ensures badge { (badge.new.table_id ≡ B.table) × ((last : EntryData) → map entry_data entries.now ≡ seat.old.me.0.log ++ last ∷ [] → IsPassOf badge.new.views (called last (map entry_data entries.now) (known_in badge.old.views))) }
        ensures fits { FitsHistory seat.old.me.0.log (known_in badge.old.views) }
    {
        let count = entries.len();
        self.commit(seat, badge, &entries[count - 1], count as u64);
        count as u64
    }

    /// The pass sees the whole history.
    pub(crate) fn catch_up(&self, seat: &mut Seat<Entry, View>, badge: &mut Badge<View>)
        requires seat { (seat.old.table_id ≡ B.table) × IsBooks seat.old.me }
        requires badge { (badge.old.table_id ≡ B.table) × HasPass badge.old.views }
        ensures seat { (seat.new.table_id ≡ B.table) × (seat.new.me ≡ seat.old.me) }
        ensures badge { (badge.new.table_id ≡ B.table) × IsPassOf badge.new.views (caught_up seat.old.me.0.log (known_in badge.old.views)) }
        ensures fits { FitsHistory seat.old.me.0.log (known_in badge.old.views) }
    {
        self.join(seat, badge);
        self.table.shared.load::<Learns>(seat, 0);
        *badge = self.part(seat);
    }

    /// Tells of the passes that joined the book's seat.
    pub(crate) fn learn(&self, seat: &mut Seat<Entry, View>)
        requires table { seat.old.table_id ≡ B.table }
        requires book { (seat.old.me.0.keeps ≡ true) × (seat.old.me.1 ≡ []) }
        ensures fit { AllFitHistory seat.old.me.0.log seat.old.me.0.passes }
        ensures given { AllGiven seat.old.me.0.entered seat.old.me.0.passes }
        ensures different { AreDifferent seat.old.me.0.passes }
    {
        self.table.shared.load::<Learns>(seat, 0);
    }

    /// A length of the journal for the pass.
    pub(crate) fn front(&self, badge: &mut Badge<View>) -> u64
        requires { (badge.old.table_id ≡ B.table) × HasPass badge.old.views }
        ensures badge { (badge.new.table_id ≡ B.table) × IsPassOf badge.new.views (at_front result (known_in badge.old.views)) }
        ensures longer { (known_in badge.old.views).front ≤ result }
    {
        let mut seat = mem::replace(badge, Badge::blank()).into_seat::<Entry>();
        let found = self.table.shared.load::<Fronts>(&mut seat, 0);
        *badge = seat.into_badge();
        found
    }

    /// One length of the journal for both passes.
    pub(crate) fn meet(&self, one: &mut Badge<View>, other: &mut Badge<View>) -> u64
        requires one { (one.old.table_id ≡ B.table) × HasPass one.old.views }
        requires other { (other.old.table_id ≡ B.table) × HasPass other.old.views }
        ensures one { (one.new.table_id ≡ B.table) × IsPassOf one.new.views (at_front result (known_in one.old.views)) }
        ensures other { (other.new.table_id ≡ B.table) × IsPassOf other.new.views (at_front result (known_in other.old.views)) }
        ensures longer { ((known_in one.old.views).front ≤ result) × ((known_in other.old.views).front ≤ result) }
        ensures seen { IsPrefix (known_in one.old.views).seen (known_in other.old.views).seen ⊎ IsPrefix (known_in other.old.views).seen (known_in one.old.views).seen }
    {
        let mut seat = mem::replace(one, Badge::blank()).into_seat::<Entry>();
        self.join(&mut seat, other);
        let found = self.table.shared.load::<Fronts>(&mut seat, 0);
        *other = self.part(&mut seat);
        *one = seat.into_badge();
        found
    }

    /// The pass's seat is joined to this one. The badge is blank then.
    pub(crate) fn join(&self, seat: &mut Seat<Entry, View>, badge: &mut Badge<View>)
        requires seat { seat.old.table_id ≡ B.table }
        requires badge { (badge.old.table_id ≡ B.table) × HasPass badge.old.views }
        ensures { (seat.new.table_id ≡ B.table) × (seat.new.me ≡ (both seat.old.me.0 (holder (known_in badge.old.views ∷ [])), seat.old.me.1)) }
    {
        let theirs = mem::replace(badge, Badge::blank()).into_seat::<Entry>();
        self.table.shared.join_seat::<Takes>(seat, theirs);
    }

    /// The badge of the last pass in this seat, which stays without it.
    fn part(&self, seat: &mut Seat<Entry, View>) -> Badge<View>
        requires { seat.old.table_id ≡ B.table }
        ensures seat { (seat.new.table_id ≡ B.table) × (seat.new.me ≡ (staying seat.old.me.0, seat.old.me.1)) }
        ensures badge { (result.table_id ≡ B.table) × (result.views ≡ parted seat.old.me.0 ∷ []) }
    {
        self.table.shared.split_seat::<Parts>(seat).into_badge()
    }
}
