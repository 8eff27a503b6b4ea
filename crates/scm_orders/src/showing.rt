//! What the facts of hints show by themselves and by the order of processes.
ghost use Rattle.std.specs.Prelude.{◌≡◌, ◌↔◌, IsTrue, IsSomeAnd, option_and_then, if◌then◌else◌};
ghost use Rattle.scm_orders.specs.Facts.{fact_at as known_at, order_of, Shows, IsBefore, IsJoined, Leads};

use crate::cut_trace::CutTrace;
use crate::{Fact, Line, Place};

/// What a line may rest on: the trace, the lines before it, and its hints, which are numbers of some of these.
#[derive(Clone, Copy)]
pub(crate) struct Basis<'a> {
    pub(crate) trace: &'a CutTrace<'a>,
    pub(crate) earlier: &'a [Line],
    pub(crate) hints: &'a [u32],
}

/// What the earlier line of this number says, if there is one.
pub(crate) fn fact_at(earlier: &[Line], number: u32) -> Option<Fact>
    ensures { result ≡ known_at earlier.now number }
{
    Some(earlier.get(number as usize)?.fact)
}

/// Whether the fact puts the one operation before the other, by the order of processes at both ends.
pub(crate) fn shows(fact: Fact, from: Place, to: Place) -> bool
    ensures { IsTrue result ↔ Shows fact from to }
{
    match fact.order() {
        Some((first, second)) => from.is_up_to(first) && second.is_up_to(to),
        None => false,
    }
}

/// Whether the one operation stands before the other, by the order of their process or by a hint.
pub(crate) fn is_before(earlier: &[Line], hints: &[u32], from: Place, to: Place) -> bool
    ensures { IsTrue result ↔ IsBefore earlier.now hints.now from to }
{
    from.is_earlier(to)
        || hints
            .iter()
            .any(|hint| hint_shows(earlier, *hint, from, to))
}

// Whether this hint puts the one operation before the other.
fn hint_shows(earlier: &[Line], hint: u32, from: Place, to: Place) -> bool
    ensures { IsTrue result ↔ IsSomeAnd (known_at earlier.now hint) (λ fact. Shows fact from to) }
{
    match fact_at(earlier, hint) {
        Some(fact) => shows(fact, from, to),
        None => false,
    }
}

/// Whether the hints lead from the one operation to the other; without hints, whether they are two of one process.
pub(crate) fn is_joined(earlier: &[Line], hints: &[u32], from: Place, to: Place) -> bool
    ensures { IsTrue result ↔ IsJoined earlier.now hints.now from to }
{
    if hints.is_empty() {
        from.is_earlier(to)
    } else {
        leads(earlier, hints, from, to)
    }
}

// Whether the hints lead from the one operation to the other, one after the other, by the order of processes between them.
fn leads(earlier: &[Line], hints: &[u32], from: Place, to: Place) -> bool
    ensures { IsTrue result ↔ Leads earlier.now hints.now from to }
{
    let mut reached = from;
    for hint in hints {
        match order_at(earlier, *hint) {
            Some((next, after)) if reached.is_up_to(next) => reached = after,
            _ => return false,
        }
    }
    reached.is_up_to(to)
}

// The order that the earlier line of this number says, if there is one.
fn order_at(earlier: &[Line], number: u32) -> Option<(Place, Place)>
    ensures { result ≡ option_and_then order_of (known_at earlier.now number) }
{
    fact_at(earlier, number)?.order()
}
