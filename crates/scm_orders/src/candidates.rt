//! What a read can see, by the facts of hints.
ghost use Rattle.std.specs.Prelude.{ℕ, ◌≢◌, ◌<◌, ◌⊎◌, ◌↔◌, IsTrue, IsSome, IsSomeAnd, MatchOption, length, ⊤};
ghost use Rattle.scm_sequences.specs.Traces.{initial_of};
ghost use Rattle.scm_orders.specs.Facts.{WritesWhatIsRead, fact_at as known_at, SomeHint};
ghost use Rattle.scm_orders.specs.Refuting.{Overwrites, Denies, RulesOut, PutsWriteBefore, DeniesFirst, RulesOutFirst, IsRuledOut, IsRuledOutFirst, HasFirst, Has, HasBy, IsSettled, IsFirstSettled, LeavesOnly, Leaves};

use crate::cut_trace::{CutTrace, Reading};
use crate::showing::{Basis, fact_at, shows};
use crate::{Fact, Place};

/// What may be left for a read to see.
#[derive(Clone, Copy)]
pub(crate) enum Left {
    /// This write alone.
    Write(Place),
    /// First contents alone.
    First,
    /// This operation, and what comes after it.
    After(Place),
    /// First contents, and what comes before this operation.
    Before(Place),
}

impl Left {
    // Whether it has first contents.
    fn has_first(self) -> bool
        ensures { IsTrue result ↔ HasFirst self }
    {
        matches!(self, Left::First | Left::Before(_))
    }

    // Whether it has this write, by the order of processes.
    fn has(self, write: Place) -> bool
        ensures { IsTrue result ↔ Has self write }
    {
        match self {
            Left::Write(only) => write == only,
            Left::First => false,
            Left::After(from) => from.is_up_to(write),
            Left::Before(to) => write.is_earlier(to),
        }
    }

    // Whether it has this write by the fact.
    fn has_by(self, fact: Fact, write: Place) -> bool
        ensures { IsTrue result ↔ HasBy self fact write }
    {
        match self {
            Left::Write(_) | Left::First => false,
            Left::After(from) => shows(fact, from, write),
            Left::Before(to) => shows(fact, write, to),
        }
    }
}

// Whether the fact puts a write of the cell, later in the process of the write, before the read.
fn overwrites(trace: &CutTrace<'_>, fact: Fact, read: Reading, write: Place) -> bool
    ensures { IsTrue result ↔ Overwrites trace.now fact read write }
{
    match fact.order() {
        Some((from, to)) => {
            write.is_earlier(from)
                && trace.written(from, read.cell).is_some()
                && to.is_up_to(read.place)
        }
        None => false,
    }
}

// Whether the fact says that the read doesn't see the write, or sees something else, or that the write or a later one of its
// process is hidden from it.
fn denies(fact: Fact, read: Place, write: Place) -> bool
    ensures { IsTrue result ↔ Denies fact read write }
{
    match fact {
        Fact::Before { .. } => false,
        Fact::Sees {
            write: seen,
            read: by,
        } => by == read && seen != write,
        Fact::SeesFirst { read: by } => by == read,
        Fact::Hidden {
            write: hidden,
            read: from,
        } => from == read && write.is_up_to(hidden),
        Fact::Unseen {
            write: unseen,
            read: by,
        } => by == read && unseen == write,
        Fact::UnseenFirst { .. } => false,
    }
}

// Whether by the fact the read doesn't see the write.
fn rules_out(trace: &CutTrace<'_>, fact: Fact, read: Reading, write: Place) -> bool
    ensures { IsTrue result ↔ RulesOut trace.now fact read write }
{
    shows(fact, read.place, write)
        || overwrites(trace, fact, read, write)
        || denies(fact, read.place, write)
}

// Whether the fact puts a write of the cell before the read.
fn puts_write_before(trace: &CutTrace<'_>, fact: Fact, read: Reading) -> bool
    ensures { IsTrue result ↔ PutsWriteBefore trace.now fact read }
{
    match fact.order() {
        Some((from, to)) => { trace.written(from, read.cell).is_some() && to.is_up_to(read.place) }
        None => false,
    }
}

// Whether the fact says so, or that an operation which sees first contents read another value of the cell.
fn denies_first(trace: &CutTrace<'_>, fact: Fact, read: Reading) -> bool
    ensures { IsTrue result ↔ DeniesFirst trace.now fact read }
{
    match fact {
        Fact::SeesFirst { read: by } => trace
            .read(by, read.cell)
            .is_some_and(|other| other != read.value),
        Fact::UnseenFirst { read: by } => by == read.place,
        Fact::Before { .. } | Fact::Sees { .. } | Fact::Hidden { .. } | Fact::Unseen { .. } => {
            false
        }
    }
}

// Whether by the fact the read doesn't see first contents.
fn rules_out_first(trace: &CutTrace<'_>, fact: Fact, read: Reading) -> bool
    ensures { IsTrue result ↔ RulesOutFirst trace.now fact read }
{
    puts_write_before(trace, fact, read) || denies_first(trace, fact, read)
}

// Whether by this hint the read doesn't see first contents.
fn hint_rules_out_first(on: &Basis<'_>, hint: u32, read: Reading) -> bool
    ensures { IsTrue result ↔ IsSomeAnd (known_at on.now.earlier.now hint) (λ fact. RulesOutFirst on.now.trace.now fact read) }
{
    match fact_at(on.earlier, hint) {
        Some(fact) => rules_out_first(on.trace, fact, read),
        None => false,
    }
}

// Whether first contents are another value than the read's.
fn is_other_first(trace: &CutTrace<'_>, read: Reading) -> bool
    ensures { IsTrue result ↔ IsSomeAnd (initial_of trace.now read.cell) (λ first. first ≢ read.value) }
{
    trace
        .initial(read.cell)
        .is_some_and(|first| first != read.value)
}

// Whether first contents are left, or another value, or a hint rules them out.
fn is_first_settled(on: &Basis<'_>, read: Reading, left: Left) -> bool
    ensures { IsTrue result ↔ IsFirstSettled on.now.trace.now on.now.earlier.now on.now.hints.now read left }
{
    left.has_first()
        || is_other_first(on.trace, read)
        || on
            .hints
            .iter()
            .any(|hint| hint_rules_out_first(on, *hint, read))
}

// Whether this hint rules the write out, or shows that it is left.
fn hint_settles(on: &Basis<'_>, hint: u32, read: Reading, left: Left, write: Place) -> bool
    ensures { IsTrue result ↔ IsSomeAnd (known_at on.now.earlier.now hint) (λ fact. RulesOut on.now.trace.now fact read write ⊎ HasBy left fact write) }
{
    match fact_at(on.earlier, hint) {
        Some(fact) => rules_out(on.trace, fact, read, write) || left.has_by(fact, write),
        None => false,
    }
}

// The first of these hints that rules the write out or shows that it is left, if there is one.
fn settling_hint(
    on: &Basis<'_>,
    hints: &[u32],
    read: Reading,
    left: Left,
    write: Place,
) -> Option<usize>
    ensures settles { IsSome result ↔ SomeHint on.now.earlier.now hints.now (λ fact. RulesOut on.now.trace.now fact read write ⊎ HasBy left fact write) }
    ensures within { MatchOption result ⊤ (λ k. k < length hints.now) }
{
    hints
        .iter()
        .position(|hint| hint_settles(on, *hint, read, left, write))
}

// Whether one of the hints rules the write out or shows that it is left. The search begins with the one that served last, so that hints in the order of the writes
// cost one pass.
fn is_settled_by_hint(
    on: &Basis<'_>,
    read: Reading,
    left: Left,
    write: Place,
    served: &mut usize,
) -> bool
    ensures { IsTrue result ↔ SomeHint on.now.earlier.now on.now.hints.now (λ fact. RulesOut on.now.trace.now fact read write ⊎ HasBy left fact write) }
{
    let start = (*served).min(on.hints.len());
    if let Some(k) = settling_hint(on, &on.hints[start..], read, left, write) {
        *served = start + k;
        return true;
    }
    match settling_hint(on, &on.hints[..start], read, left, write) {
        Some(k) => {
            *served = k;
            true
        }
        None => false,
    }
}

// Whether the operation at this place, where it writes the read's value to the cell, is settled.
fn is_settled(on: &Basis<'_>, read: Reading, left: Left, write: Place, served: &mut usize) -> bool
    ensures { IsTrue result ↔ IsSettled on.now.trace.now on.now.earlier.now on.now.hints.now read left write }
{
    on.trace.written(write, read.cell) != Some(read.value)
        || read.place.is_up_to(write)
        || left.has(write)
        || is_settled_by_hint(on, read, left, write, served)
}

// Whether each operation of this process is settled.
fn is_process_settled(
    on: &Basis<'_>,
    read: Reading,
    left: Left,
    process: u8,
    served: &mut usize,
) -> bool
    ensures { IsTrue result ↔ ((at : ℕ) → IsSettled on.now.trace.now on.now.earlier.now on.now.hints.now read left (record { process = process; at = at })) }
{
    for at in 0..on.trace.count(usize::from(process)) {
        let write = Place {
            process,
            at: at as u32,
        };
        if !is_settled(on, read, left, write, served) {
            return false;
        }
    }
    true
}

// Whether each operation is settled.
fn are_settled(on: &Basis<'_>, read: Reading, left: Left) -> bool
    ensures { IsTrue result ↔ ((write : Place) → IsSettled on.now.trace.now on.now.earlier.now on.now.hints.now read left write) }
{
    let mut served = 0;
    for p in 0..on.trace.procs() {
        if !is_process_settled(on, read, left, p as u8, &mut served) {
            return false;
        }
    }
    true
}

// Whether nothing but this is left for the read to see.
fn leaves_only(on: &Basis<'_>, left: Left, read: Reading) -> bool
    ensures { IsTrue result ↔ LeavesOnly on.now.trace.now on.now.earlier.now on.now.hints.now left read }
{
    is_first_settled(on, read, left) && are_settled(on, read, left)
}

/// Whether the operation at this place reads, and nothing but this is left for it to see.
pub(crate) fn leaves(on: &Basis<'_>, place: Place, left: Left) -> bool
    ensures { IsTrue result ↔ Leaves on.now.trace.now on.now.earlier.now on.now.hints.now place left }
{
    match on.trace.reading(place) {
        Some(read) => leaves_only(on, left, read),
        None => false,
    }
}

/// Whether the one writes a cell that the other reads.
pub(crate) fn writes_what_is_read(trace: &CutTrace<'_>, write: Place, read: Place) -> bool
    ensures { IsTrue result ↔ WritesWhatIsRead trace.now write read }
{
    match trace.reading(read) {
        Some(reading) => trace.written(write, reading.cell).is_some(),
        None => false,
    }
}

/// Whether there is a read at this place, which by the fact doesn't see the write.
pub(crate) fn is_ruled_out(trace: &CutTrace<'_>, fact: Fact, read: Place, write: Place) -> bool
    ensures { IsTrue result ↔ IsRuledOut trace.now fact read write }
{
    match trace.reading(read) {
        Some(by) => rules_out(trace, fact, by, write),
        None => false,
    }
}

/// Whether there is a read at this place, which by the fact doesn't see first contents.
pub(crate) fn is_ruled_out_first(trace: &CutTrace<'_>, fact: Fact, read: Place) -> bool
    ensures { IsTrue result ↔ IsRuledOutFirst trace.now fact read }
{
    match trace.reading(read) {
        Some(by) => rules_out_first(trace, fact, by),
        None => false,
    }
}
