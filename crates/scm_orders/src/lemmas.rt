//! What is left of blocks that have ended.
ghost use Rattle.std.specs.Prelude.{ℕ, ◌≡◌, ◌<◌, ◌↔◌, IsTrue, IsSomeAnd, slice_get, drop};
ghost use Rattle.scm_orders.specs.Facts.{fact_at as known_at, SomeHint};
ghost use Rattle.scm_orders.specs.Refuting.{Negates, Implies, IsMet, Assumes, LeavesOne, IsLemma, hints_near as near};

use crate::blocks::is_assumed;
use crate::candidates::{is_ruled_out, is_ruled_out_first};
use crate::cut_trace::CutTrace;
use crate::showing::{Basis, fact_at, shows};
use crate::{Fact, Line};

/// Whether line `end` ends a block, and its assumptions hold by the hints but one, of which the fact is the contrary.
pub(crate) fn is_lemma(on: &Basis<'_>, fact: Fact, end: u32) -> bool
    ensures { IsTrue result ↔ IsLemma on.now.trace.now on.now.earlier.now on.now.hints.now fact end }
{
    match on.earlier.get(end as usize) {
        Some(line) => line.fact.is_contradiction() && is_left(on, fact, line.block),
        None => false,
    }
}

fn is_left(on: &Basis<'_>, fact: Fact, block: Option<u32>) -> bool
    ensures { IsTrue result ↔ IsSomeAnd block (λ block. LeavesOne on.now.trace.now on.now.earlier.now on.now.hints.now fact block (drop block on.now.earlier.now)) }
{
    match block {
        Some(block) => leaves_one(on, fact, block, from(on.earlier, block as usize)),
        None => false,
    }
}

// The lines from this one on.
fn from(lines: &[Line], number: usize) -> &[Line]
    ensures { result.now ≡ drop number lines.now }
{
    &lines[number.min(lines.len())..]
}

// Whether the block, with these lines from its first one on, has one assumption more than there are hints, and each is met.
fn leaves_one(on: &Basis<'_>, fact: Fact, block: u32, lines: &[Line]) -> bool
    ensures { IsTrue result ↔ LeavesOne on.now.trace.now on.now.earlier.now on.now.hints.now fact block lines.now }
{
    if lines.len() <= on.hints.len() {
        return false;
    }
    let count = on.hints.len() + 1;
    !is_assumption(lines, block, count) && are_met(on, fact, block, lines, count)
}

// Whether there is a line of this number, which is an assumption of the block.
fn is_assumption(lines: &[Line], block: u32, number: usize) -> bool
    ensures { IsTrue result ↔ IsSomeAnd (slice_get lines.now number) (Assumes block) }
{
    match lines.get(number) {
        Some(line) => assumes(*line, block),
        None => false,
    }
}

fn assumes(line: Line, block: u32) -> bool
    ensures { IsTrue result ↔ Assumes block line }
{
    is_assumed(line.rule) && line.block == Some(block)
}

// Whether each of the first `count` lines is an assumption of the block, and is met.
fn are_met(on: &Basis<'_>, fact: Fact, block: u32, lines: &[Line], count: usize) -> bool
    ensures { IsTrue result ↔ ((k : ℕ) → k < count → IsSomeAnd (slice_get lines.now k) (λ line. Assumes block line × IsMet on.now.trace.now on.now.earlier.now (near on.now.hints.now k) fact line.fact)) }
{
    for k in 0..count {
        if !is_met_at(on, fact, block, lines, k) {
            return false;
        }
    }
    true
}

// Whether the line at this place is an assumption of the block that is met.
fn is_met_at(on: &Basis<'_>, fact: Fact, block: u32, lines: &[Line], k: usize) -> bool
    ensures { IsTrue result ↔ IsSomeAnd (slice_get lines.now k) (λ line. Assumes block line × IsMet on.now.trace.now on.now.earlier.now (near on.now.hints.now k) fact line.fact) }
{
    match lines.get(k) {
        Some(line) => assumes(*line, block) && is_met(on, fact, k, line.fact),
        None => false,
    }
}

// Whether assumption `k` is the contrary of the fact, or holds by a hint.
fn is_met(on: &Basis<'_>, fact: Fact, k: usize, assumed: Fact) -> bool
    ensures { IsTrue result ↔ IsMet on.now.trace.now on.now.earlier.now (near on.now.hints.now k) fact assumed }
{
    negates(assumed, fact) || is_implied(on, hints_near(on.hints, k), assumed)
}

// The hints that may be for assumption `k`.
fn hints_near(hints: &[u32], k: usize) -> &[u32]
    ensures { result.now ≡ near hints.now k }
{
    let end = k.saturating_add(1).min(hints.len());
    &hints[k.saturating_sub(1).min(end)..end]
}

// Whether the fact of one of these hints implies what is assumed.
fn is_implied(on: &Basis<'_>, hints: &[u32], assumed: Fact) -> bool
    ensures { IsTrue result ↔ SomeHint on.now.earlier.now hints.now (λ one. Implies on.now.trace.now one assumed) }
{
    hints.iter().any(|hint| hint_implies(on, *hint, assumed))
}

fn hint_implies(on: &Basis<'_>, hint: u32, assumed: Fact) -> bool
    ensures { IsTrue result ↔ IsSomeAnd (known_at on.now.earlier.now hint) (λ one. Implies on.now.trace.now one assumed) }
{
    match fact_at(on.earlier, hint) {
        Some(one) => implies(on.trace, one, assumed),
        None => false,
    }
}

// Whether in each schedule just one of the two facts is so.
fn negates(one: Fact, other: Fact) -> bool
    ensures { IsTrue result ↔ Negates one other }
{
    match one {
        Fact::Before { from, to } => { from != to && other == Fact::Before { from: to, to: from } }
        Fact::Sees { write, read } => other == Fact::Unseen { write, read },
        Fact::SeesFirst { read } => other == Fact::UnseenFirst { read },
        Fact::Hidden { .. } => false,
        Fact::Unseen { write, read } => other == Fact::Sees { write, read },
        Fact::UnseenFirst { read } => other == Fact::SeesFirst { read },
    }
}

// Whether the other fact is so where the one is.
fn implies(trace: &CutTrace<'_>, one: Fact, other: Fact) -> bool
    ensures { IsTrue result ↔ Implies trace.now one other }
{
    match other {
        Fact::Before { from, to } => shows(one, from, to),
        Fact::Unseen { write, read } => is_ruled_out(trace, one, read, write),
        Fact::UnseenFirst { read } => is_ruled_out_first(trace, one, read),
        Fact::Sees { .. } | Fact::SeesFirst { .. } | Fact::Hidden { .. } => one == other,
    }
}
