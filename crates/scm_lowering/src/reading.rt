//! Accesses from words.
ghost use Rattle.std.specs.Prelude.{◌≡◌, [], ◌∷◌, ok_or, map};
ghost use Rattle.scm_sequences.specs.declared.refusal.Refusal.TheVariants.{BadLine};
ghost use Rattle.scm_lowering.specs.Accesses.{access_of_words, access_of_one, access_of_two};

use crate::Access;
use scm_amo::read_name;
use scm_cells::{Name, Num, Width, read_num};
use scm_sequences::Refusal;

/// The access of this word to a cell, with one number.
fn one_number(word: &[u8], cell: Name, value: Num) -> Option<Access>
    ensures { result ≡ access_of_one word.now cell value }
{
    if word == b"lw".as_slice() {
        return Some(Access::Load {
            width: Width::W,
            cell,
            value,
        });
    }
    if word == b"ld".as_slice() {
        return Some(Access::Load {
            width: Width::D,
            cell,
            value,
        });
    }
    if word == b"sw".as_slice() {
        return Some(Access::Store {
            width: Width::W,
            cell,
            value,
        });
    }
    if word == b"sd".as_slice() {
        return Some(Access::Store {
            width: Width::D,
            cell,
            value,
        });
    }
    None
}

/// The access of this word to a cell, with two numbers.
fn two_numbers(word: &[u8], cell: Name, first: Num, second: Num) -> Option<Access>
    ensures { result ≡ access_of_two word.now cell first second }
{
    if word == b"rw".as_slice() {
        return Some(Access::ReadWrite {
            cell,
            old: first,
            new: second,
        });
    }
    let (kind, width) = read_name(word)?;
    Some(Access::Amo {
        kind,
        width,
        cell,
        operand: first,
        old: second,
    })
}

/// The access that a word, the name of a cell and a number stand for.
#[tactic(auto, unfolding(crate::specs::Accesses::access_of_words))]
fn find_with_one(word: &[u8], cell: &[u8], value: &[u8]) -> Option<Access>
    ensures { result ≡ access_of_words (word.now ∷ cell.now ∷ value.now ∷ []) }
{
    one_number(word, Name::read(cell)?, read_num(value)?)
}

/// The access that a word, the name of a cell and two numbers stand for.
#[tactic(auto, unfolding(crate::specs::Accesses::access_of_words))]
fn find_with_two(word: &[u8], cell: &[u8], first: &[u8], second: &[u8]) -> Option<Access>
    ensures { result ≡ access_of_words (word.now ∷ cell.now ∷ first.now ∷ second.now ∷ []) }
{
    two_numbers(word, Name::read(cell)?, read_num(first)?, read_num(second)?)
}

/// The access that words stand for:
///
/// - `lw`, `ld`, `sw` or `sd`, the name of a cell and a value;
/// - the name of an AMO, the name of a cell, the operand and the old value;
/// - `rw`, the name of a cell, the old value and the new one.
///
/// Any other words are refused `BadLine`.
#[tactic(auto, unfolding(crate::specs::Accesses::access_of_words))]
pub fn read_access(words: &[&[u8]]) -> Result<Access, Refusal>
    ensures { result ≡ ok_or (access_of_words (map (λ word. word.now) words.now)) BadLine }
{
    match words {
        [word, cell, value] => find_with_one(word, cell, value).ok_or(Refusal::BadLine),
        [word, cell, first, second] => {
            find_with_two(word, cell, first, second).ok_or(Refusal::BadLine)
        }
        _ => Err(Refusal::BadLine),
    }
}
