//! What a cell is declared to hold at first.
ghost use Rattle.std.specs.Prelude.{◌≡◌};
ghost use Rattle.std.specs.Option.{ok_or};
ghost use Rattle.scm_sequences.specs.declared.refusal.Refusal.TheVariants.{ValueOutOfRange};
ghost use Rattle.scm_cells.specs.CellLists.{initial_of_word, first_contents};

use crate::{Num, Width, narrow, read_num};
use scm_sequences::Refusal;

/// What a cell is declared to hold at first.
#[derive(Clone, Copy, Debug, PartialEq, Eq)]
pub enum Initial {
    /// The value of a number.
    Given(Num),
    /// A value that isn't known.
    Unset,
}

/// What a word declares: `?` a value that isn't known, a number its value. `None` for any other word.
pub fn read_initial(word: &[u8]) -> Option<Initial>
    ensures { result ≡ initial_of_word word.now }
{
    if word == b"?".as_slice() {
        return Some(Initial::Unset);
    }
    let number = read_num(word)?;
    Some(Initial::Given(number))
}

impl Initial {
    /// What a cell of this width holds at first, `None` where that isn't known. A number that doesn't fit is refused
    /// `ValueOutOfRange`.
    pub(crate) fn first_contents(self, width: Width) -> Result<Option<u64>, Refusal>
        ensures { result ≡ ok_or (first_contents width self) ValueOutOfRange }
    {
        match self {
            Initial::Given(number) => Ok(Some(narrow(width, number)?)),
            Initial::Unset => Ok(None),
        }
    }
}
