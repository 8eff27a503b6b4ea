//! The test whether a derivation leaves a trace no schedule.
ghost use Rattle.std.specs.Prelude.{◌<◌, ◌↔◌, IsTrue, length};
ghost use Rattle.scm_sequences.specs.Traces.{cut_to, trace_of, IsConsistent};
ghost use Rattle.scm_orders.specs.Refuting.{LineFollows, AllFollow, IsEnd, OrdersRefute};

use crate::cut_trace::CutTrace;
use crate::following::follows;
use crate::showing::Basis;
use crate::{Derivation, Line};
use scm_sequences::{Lengths, Sequences};

/// Whether this derivation refutes the trace with these first contents and these sequences, cut to these lengths: each line
/// follows from the trace and the lines before it, and the last one puts an operation before itself outside of blocks. Then
/// the trace has no legal schedule.
///
/// The derivation is data: a place beyond the lengths, hints that aren't there or can't be named, a block in which its line
/// isn't to stand, or a rule that doesn't hold refute nothing. It takes no memory. A line that tells what a read can see costs a
/// look at each operation, and at the hints, at most 255, for each write of the value that was read; every other line costs a
/// look at its hints, and where a lemma leaves it at as many assumptions and one more.
pub fn orders_refute(
    initials: &[Option<u64>],
    sequences: &Sequences,
    lengths: &Lengths,
    derivation: &Derivation,
) -> bool
    ensures exact { IsTrue result ↔ OrdersRefute (cut_to (trace_of initials.now sequences.now) lengths.now) derivation.now.lines.items derivation.now.hints.items }
    ensures none { IsTrue result → IsConsistent (cut_to (trace_of initials.now sequences.now) lengths.now) → ⊥ }
{
    let trace = CutTrace::new(initials, sequences, lengths);
    refute(&trace, &derivation.lines, &derivation.hints)
}

// Whether the lines with these hints refute the trace.
fn refute(trace: &CutTrace<'_>, lines: &[Line], hints: &[u32]) -> bool
    ensures { IsTrue result ↔ OrdersRefute trace.now lines.now hints.now }
{
    match lines.last() {
        Some(line) => is_end(*line) && all_follow(trace, lines, hints),
        None => false,
    }
}

// Whether the line puts an operation before itself, outside of blocks.
fn is_end(line: Line) -> bool
    ensures { IsTrue result ↔ IsEnd line }
{
    line.block.is_none() && line.fact.is_contradiction()
}

// Whether each line follows from the trace and the lines before it.
fn all_follow(trace: &CutTrace<'_>, lines: &[Line], hints: &[u32]) -> bool
    ensures { IsTrue result ↔ AllFollow trace.now lines.now hints.now }
{
    for k in 0..lines.len() {
        if !line_follows(trace, lines, hints, k, lines[k]) {
            return false;
        }
    }
    true
}

// Whether this line does as line `k`.
fn line_follows(trace: &CutTrace<'_>, lines: &[Line], hints: &[u32], k: usize, line: Line) -> bool
    requires { k < length lines.now }
    ensures { IsTrue result ↔ LineFollows trace.now lines.now hints.now k line }
{
    let first = line.first as usize;
    let end = first + line.count as usize;
    if end > hints.len() {
        return false;
    }
    let basis = Basis {
        trace,
        earlier: &lines[..k],
        hints: &hints[first..end],
    };
    follows(&basis, line)
}
