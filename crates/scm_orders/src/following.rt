//! Whether a line follows from the trace and from earlier lines.
ghost use Rattle.std.specs.Prelude.{◌↔◌, All, IsTrue, IsSomeAnd};
ghost use Rattle.scm_orders.specs.Facts.{fact_at as known_at};
ghost use Rattle.scm_orders.specs.Refuting.{Follows, CanBeNamed, FollowsBy, IsDrawn, HasFewHints, IsOf, AreOperations, IsOrdered, IsHiddenBy, IsHidden, IsBeforeAll, IsWriteBefore, HasReader, IsAfterSource, IsSource};

use crate::blocks::{is_placed, is_visible};
use crate::candidates::{Left, leaves, writes_what_is_read};
use crate::cut_trace::CutTrace;
use crate::lemmas::is_lemma;
use crate::showing::{Basis, fact_at, is_before, is_joined};
use crate::{Fact, Line, MOST_HINTS, Place, Rule};

/// Whether the line follows from the trace and the earlier lines, with these hints.
pub(crate) fn follows(on: &Basis<'_>, line: Line) -> bool
    ensures { IsTrue result ↔ Follows on.now.trace.now on.now.earlier.now on.now.hints.now line }
{
    is_placed(on.earlier, line)
        && are_named(on.earlier, line.block, on.hints)
        && has_few_hints(line.rule, line.count)
        && is_of(on.trace, line.fact)
        && follows_by(on, line.fact, line.rule)
}

// Whether the hints are numbers of lines that can be named in this block.
fn are_named(earlier: &[Line], block: Option<u32>, hints: &[u32]) -> bool
    ensures { IsTrue result ↔ All (CanBeNamed earlier.now block) hints.now }
{
    hints.iter().all(|hint| is_named(earlier, block, *hint))
}

// Whether this hint is the number of a line that can be named in this block.
fn is_named(earlier: &[Line], block: Option<u32>, hint: u32) -> bool
    ensures { IsTrue result ↔ CanBeNamed earlier.now block hint }
{
    match earlier.get(hint as usize) {
        Some(line) => is_visible(line.block, block),
        None => false,
    }
}

// Whether the rule allows this many hints.
fn has_few_hints(rule: Rule, count: u32) -> bool
    ensures { IsTrue result ↔ HasFewHints rule count }
{
    match rule {
        Rule::Joined | Rule::Lemma { .. } => true,
        _ => count <= MOST_HINTS,
    }
}

// Whether the fact is one of operations of the trace.
fn is_of(trace: &CutTrace<'_>, fact: Fact) -> bool
    ensures { IsTrue result ↔ IsOf trace.now fact }
{
    match fact {
        Fact::Before { from, to } => are_operations(trace, from, to),
        Fact::Sees { write, read } | Fact::Hidden { write, read } | Fact::Unseen { write, read } =>
            are_operations(trace, write, read),
        Fact::SeesFirst { read } | Fact::UnseenFirst { read } => trace.operation(read).is_some(),
    }
}

// Whether there are operations at both places.
fn are_operations(trace: &CutTrace<'_>, a: Place, b: Place) -> bool
    ensures { IsTrue result ↔ AreOperations trace.now a b }
{
    trace.operation(a).is_some() && trace.operation(b).is_some()
}

// Whether the fact follows by the rule.
fn follows_by(on: &Basis<'_>, fact: Fact, rule: Rule) -> bool
    ensures { IsTrue result ↔ FollowsBy on.now.trace.now on.now.earlier.now on.now.hints.now fact rule }
{
    match rule {
        Rule::Assumed => true,
        Rule::Lemma { end } => is_lemma(on, fact, end),
        _ => is_drawn(on, fact, rule),
    }
}

// Whether the fact follows by a rule that draws it from the hints alone.
fn is_drawn(on: &Basis<'_>, fact: Fact, rule: Rule) -> bool
    ensures { IsTrue result ↔ IsDrawn on.now.trace.now on.now.earlier.now on.now.hints.now fact rule }
{
    match fact {
        Fact::Before { from, to } => is_ordered(on, from, to, rule),
        Fact::Sees { write, read } => { is_source(rule) && leaves(on, read, Left::Write(write)) }
        Fact::SeesFirst { read } => { is_source(rule) && leaves(on, read, Left::First) }
        Fact::Hidden { write, read } => is_hidden_by(on, write, read, rule),
        Fact::Unseen { .. } | Fact::UnseenFirst { .. } => false,
    }
}

fn is_source(rule: Rule) -> bool
    ensures { IsTrue result ↔ IsSource rule }
{
    matches!(rule, Rule::Source)
}

// Whether the one operation stands before the other by the rule.
fn is_ordered(on: &Basis<'_>, from: Place, to: Place, rule: Rule) -> bool
    ensures { IsTrue result ↔ IsOrdered on.now.trace.now on.now.earlier.now on.now.hints.now from to rule }
{
    match rule {
        Rule::Joined => is_joined(on.earlier, on.hints, from, to),
        Rule::AfterAll => leaves(on, to, Left::After(from)),
        Rule::BeforeAll => is_before_all(on, from, to),
        Rule::AfterSource => is_after_source(on, from, to),
        Rule::Hidden { .. } | Rule::Source | Rule::Assumed | Rule::Lemma { .. } => false,
    }
}

// Whether the write is hidden from the read by the rule.
fn is_hidden_by(on: &Basis<'_>, write: Place, read: Place, rule: Rule) -> bool
    ensures { IsTrue result ↔ IsHiddenBy on.now.trace.now on.now.earlier.now on.now.hints.now write read rule }
{
    match rule {
        Rule::Hidden { by } => is_hidden(on, write, read, by),
        _ => false,
    }
}

// Whether `by` writes the cell that is read, and stands between the write and the read.
fn is_hidden(on: &Basis<'_>, write: Place, read: Place, by: Place) -> bool
    ensures { IsTrue result ↔ IsHidden on.now.trace.now on.now.earlier.now on.now.hints.now write read by }
{
    writes_what_is_read(on.trace, by, read)
        && is_before(on.earlier, on.hints, write, by)
        && is_before(on.earlier, on.hints, by, read)
}

// Whether `write` is another operation, which writes the cell that is read, and what is left for the read to see comes
// before it.
fn is_before_all(on: &Basis<'_>, read: Place, write: Place) -> bool
    ensures { IsTrue result ↔ IsBeforeAll on.now.trace.now on.now.earlier.now on.now.hints.now read write }
{
    read != write
        && writes_what_is_read(on.trace, write, read)
        && leaves(on, read, Left::Before(write))
}

// Whether a hint says that `source` is what a read sees, and `write`, another write of the cell, stands before that read.
fn is_after_source(on: &Basis<'_>, write: Place, source: Place) -> bool
    ensures { IsTrue result ↔ IsAfterSource on.now.trace.now on.now.earlier.now on.now.hints.now write source }
{
    write != source
        && on
            .hints
            .iter()
            .any(|hint| hint_has_reader(on, write, source, *hint))
}

// Whether this hint shows a read of the source that the write comes before.
fn hint_has_reader(on: &Basis<'_>, write: Place, source: Place, hint: u32) -> bool
    ensures { IsTrue result ↔ IsSomeAnd (known_at on.now.earlier.now hint) (HasReader on.now.trace.now on.now.earlier.now on.now.hints.now write source) }
{
    match fact_at(on.earlier, hint) {
        Some(Fact::Sees { write: seen, read }) => {
            seen == source && is_write_before(on, write, read)
        }
        _ => false,
    }
}

// Whether the write stands before the read, and writes its cell.
fn is_write_before(on: &Basis<'_>, write: Place, read: Place) -> bool
    ensures { IsTrue result ↔ IsWriteBefore on.now.trace.now on.now.earlier.now on.now.hints.now write read }
{
    writes_what_is_read(on.trace, write, read) && is_before(on.earlier, on.hints, write, read)
}
