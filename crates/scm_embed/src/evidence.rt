//! The evidence of a reply, number by number: a schedule and its fixed values, or a refutation of either kind.
ghost use Rattle.std.specs.Prelude.{◌≡◌, ◌∷◌, [], length, map, slice_get, option_map};
ghost use Rattle.scm_book.specs.Machine.{reply_data};
ghost use Rattle.scm_embed.specs.Evidence.{rows_of, piece_at, number_row, fixed_row, counts_row, contents_row};

use crate::lines::{hint_piece, line_piece};
use scm_book::Reply;
use scm_cells::Name;
use scm_frontier::Situation;

/// What stands in a field of a row.
#[derive(Clone, Copy, Debug, PartialEq, Eq)]
pub(crate) enum Piece {
    Number(u64),
    /// A cell, by its name.
    Cell(Name),
    /// The contents of a cell that are open.
    Open,
}

/// How many rows this part of a reply has, `None` where it has no such part: 0 the processes of a schedule, 1 its fixed values,
/// 2 the counts and 3 the contents of situations, 4 the number of a mark, 5 the lines of a
/// short refutation, 6 the hints of each.
pub(crate) fn count_rows(reply: &Reply, part: u32) -> Option<usize>
    ensures { result ≡ option_map length (rows_of (reply_data reply.now) part) }
{
    match (reply, part) {
        (Reply::Consistent(witness), 0) => Some(witness.schedule.len()),
        (Reply::Consistent(witness), 1) => Some(witness.fixed.len()),
        (Reply::Because(situations), 2 | 3) => Some(situations.len()),
        (Reply::MarkSet(_), 4) => Some(1),
        (Reply::Cycle(derivation), 5 | 6) => Some(derivation.lines.len()),
        _ => None,
    }
}

/// Of a row that is one number.
fn number_alone(number: u64, field: usize) -> Option<Piece>
    ensures { result ≡ slice_get (Piece.Number number ∷ []) field }
{
    if field == 0 {
        Some(Piece::Number(number))
    } else {
        None
    }
}

fn process_piece(schedule: &[u8], row: usize, field: usize) -> Option<Piece>
    ensures { result ≡ piece_at (map number_row schedule.now) row field }
{
    let process = schedule.get(row)?;
    number_alone(u64::from(*process), field)
}

fn fixed_piece(fixed: &[(Name, u64)], row: usize, field: usize) -> Option<Piece>
    ensures { result ≡ piece_at (map fixed_row fixed.now) row field }
{
    let (cell, value) = *fixed.get(row)?;
    match field {
        0 => Some(Piece::Cell(cell)),
        1 => Some(Piece::Number(value)),
        _ => None,
    }
}

fn count_piece(situations: &[Situation], row: usize, process: usize) -> Option<Piece>
    ensures { result ≡ piece_at (map counts_row situations.now) row process }
{
    let situation = situations.get(row)?;
    if process >= situation.procs() {
        return None;
    }
    Some(Piece::Number(u64::from(situation.count(process))))
}

fn content_piece(situations: &[Situation], row: usize, cell: usize) -> Option<Piece>
    ensures { result ≡ piece_at (map contents_row situations.now) row cell }
{
    let situation = situations.get(row)?;
    if cell >= situation.cells() {
        return None;
    }
    Some(match situation.value(cell) {
        Some(value) => Piece::Number(value),
        None => Piece::Open,
    })
}

fn mark_piece(mark: u64, row: usize, field: usize) -> Option<Piece>
    ensures { result ≡ piece_at (number_row mark ∷ []) row field }
{
    if row > 0 {
        return None;
    }
    number_alone(mark, field)
}

/// What stands in this field of a row of a part, and whether there is such a part at all.
pub(crate) fn read_piece(
    reply: &Reply,
    part: u32,
    row: usize,
    field: usize,
) -> Option<Option<Piece>>
    ensures { result ≡ option_map (λ rows. piece_at rows row field) (rows_of (reply_data reply.now) part) }
{
    Some(match (reply, part) {
        (Reply::Consistent(witness), 0) => process_piece(&witness.schedule, row, field),
        (Reply::Consistent(witness), 1) => fixed_piece(&witness.fixed, row, field),
        (Reply::Because(situations), 2) => count_piece(situations, row, field),
        (Reply::Because(situations), 3) => content_piece(situations, row, field),
        (Reply::MarkSet(mark), 4) => mark_piece(*mark, row, field),
        (Reply::Cycle(it), 5) => line_piece(&it.lines, row, field),
        (Reply::Cycle(it), 6) => hint_piece(&it.lines, &it.hints, row, field),
        _ => return None,
    })
}
