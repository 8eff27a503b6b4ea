//! Blocks of lines.
ghost use Rattle.std.specs.Prelude.{◌≡◌, ◌↔◌, IsTrue};
ghost use Rattle.scm_orders.specs.Facts.{IsAssumed, LeavesBlockOpen, GoesOn, IsPlaced, IsVisible, opened};

use crate::{Line, Rule};

/// Whether the rule assumes.
pub(crate) fn is_assumed(rule: Rule) -> bool
    ensures { IsTrue result ↔ IsAssumed rule }
{
    matches!(rule, Rule::Assumed)
}

/// Whether a line of the one block can be named in the other.
pub(crate) fn is_visible(one: Option<u32>, other: Option<u32>) -> bool
    ensures { IsTrue result ↔ IsVisible one other }
{
    one.is_none() || one == other
}

/// Whether the line stands in the block in which it is to stand behind these.
pub(crate) fn is_placed(earlier: &[Line], line: Line) -> bool
    ensures { IsTrue result ↔ IsPlaced earlier.now line }
{
    match earlier.last() {
        Some(before) if is_open(*before) => goes_on(*before, line),
        _ => is_opened(earlier.len(), line),
    }
}

// Whether the line leaves its block open.
fn is_open(line: Line) -> bool
    ensures { IsTrue result ↔ LeavesBlockOpen line }
{
    line.block.is_some() && !line.fact.is_contradiction()
}

// Whether the line goes on with the block of the line before it; where it is assumed, so is that.
fn goes_on(before: Line, line: Line) -> bool
    ensures { IsTrue result ↔ GoesOn before line }
{
    line.block == before.block && (!is_assumed(line.rule) || is_assumed(before.rule))
}

// Whether line `number` begins a block where it is assumed, and stands outside where it isn't.
fn is_opened(number: usize, line: Line) -> bool
    ensures { IsTrue result ↔ (line.block ≡ opened number line.rule) }
{
    match line.rule {
        Rule::Assumed => line.block.is_some_and(|first| first as usize == number),
        _ => line.block.is_none(),
    }
}
