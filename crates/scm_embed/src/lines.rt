//! The lines of a short refutation, as numbers.
ghost use Rattle.std.specs.Prelude.{◌≡◌, map, slice_get};
ghost use Rattle.scm_embed.specs.Evidence.{nowhere as no_place, fact_parts, rule_parts, line_numbers, piece_at, line_row, hints_row};

use crate::evidence::Piece;
use scm_orders::{Fact, Line, Place, Rule};

/// Where no operation stands.
fn nowhere() -> Place
    ensures { result ≡ no_place }
{
    Place { process: 0, at: 0 }
}

/// The number of what a line says, and its two operations, the first one nowhere where there is none.
fn fact_parts(fact: Fact) -> (u64, Place, Place)
    ensures { result ≡ fact_parts fact }
{
    match fact {
        Fact::Before { from, to } => (0, from, to),
        Fact::Sees { write, read } => (1, write, read),
        Fact::SeesFirst { read } => (2, nowhere(), read),
        Fact::Hidden { write, read } => (3, write, read),
        Fact::Unseen { write, read } => (4, write, read),
        Fact::UnseenFirst { read } => (5, nowhere(), read),
    }
}

/// The number of a rule, and the operation that hides, nowhere where there is none. The line that ends a block stands as
/// a place there.
fn rule_parts(rule: Rule) -> (u64, Place)
    ensures { result ≡ rule_parts rule }
{
    match rule {
        Rule::Joined => (0, nowhere()),
        Rule::Hidden { by } => (1, by),
        Rule::Source => (2, nowhere()),
        Rule::AfterAll => (3, nowhere()),
        Rule::BeforeAll => (4, nowhere()),
        Rule::AfterSource => (5, nowhere()),
        Rule::Assumed => (6, nowhere()),
        Rule::Lemma { end } => (
            7,
            Place {
                process: 0,
                at: end,
            },
        ),
    }
}

/// The numbers of a line: what it says of which two operations, by which rule, and what hides.
fn line_numbers(line: Line) -> [u64; 8]
    ensures { result ≡ line_numbers line }
{
    let (says, from, to) = fact_parts(line.fact);
    let (rule, by) = rule_parts(line.rule);
    [
        says,
        u64::from(from.process),
        u64::from(from.at),
        u64::from(to.process),
        u64::from(to.at),
        rule,
        u64::from(by.process),
        u64::from(by.at),
    ]
}

/// What stands in this field of a line.
fn line_field(line: Line, field: usize) -> Option<Piece>
    ensures { result ≡ slice_get (line_row line) field }
{
    let numbers = line_numbers(line);
    let number = numbers.get(field)?;
    Some(Piece::Number(*number))
}

/// What stands in this field of one of the lines.
pub(crate) fn line_piece(lines: &[Line], row: usize, field: usize) -> Option<Piece>
    ensures { result ≡ piece_at (map line_row lines.now) row field }
{
    line_field(*lines.get(row)?, field)
}

/// The hint at this place of a line, among those of its derivation.
fn hint_field(line: Line, hints: &[u32], place: usize) -> Option<Piece>
    ensures { result ≡ slice_get (hints_row hints.now line) place }
{
    let hint = line.hints_in(hints).get(place)?;
    Some(Piece::Number(u64::from(*hint)))
}

/// The hint at this place of one of the lines.
pub(crate) fn hint_piece(lines: &[Line], hints: &[u32], row: usize, place: usize) -> Option<Piece>
    ensures { result ≡ piece_at (map (hints_row hints.now) lines.now) row place }
{
    hint_field(*lines.get(row)?, hints, place)
}
