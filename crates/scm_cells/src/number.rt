//! Words that stand for counts and numbers, and the value of a number in a cell of a width.
ghost use Rattle.std.specs.Prelude.{◌≡◌, IsNone, IfSome};
ghost use Rattle.std.specs.Option.{ok_or};
ghost use Rattle.scm_sequences.specs.declared.refusal.Refusal.TheVariants.{BadLine, ValueOutOfRange};
ghost use Rattle.scm_cells.specs.Numbers.{count_of_word, number_of_word, value_of_number};

use crate::Width;
use crate::digits::{Base, read_digits};
use scm_sequences::Refusal;

/// A number as it was written, before the width of its cell is known.
#[derive(Clone, Copy, Debug, PartialEq, Eq, Hash)]
pub enum Num {
    /// A number below 2^64.
    Plain(u64),
    /// A minus sign before a number below 2^64.
    Negative(u64),
    /// A number of 2^64 or more, with or without a minus sign.
    Beyond,
}

/// The number that a word stands for, or `None` where it stands for none: decimal digits, a minus sign and
/// decimal digits, or `0x` and hexadecimal digits of either case.
pub fn read_num(word: &[u8]) -> Option<Num>
    ensures { result ≡ number_of_word word.now }
{
    if word.starts_with(b"-") {
        let magnitude = read_digits(&word[1..], Base::Decimal)?;
        return Some(magnitude.map_or(Num::Beyond, Num::Negative));
    }
    let magnitude = if word.starts_with(b"0x") {
        read_digits(&word[2..], Base::Hexadecimal)?
    } else {
        read_digits(word, Base::Decimal)?
    };
    Some(magnitude.map_or(Num::Beyond, Num::Plain))
}

/// The count that a word of decimal digits stands for, or `None` for any other word. A count past
/// 2^64 - 1 stands for 2^64 - 1.
pub fn read_count(word: &[u8]) -> Option<u64>
    ensures { result ≡ count_of_word word.now }
{
    let count = read_digits(word, Base::Decimal)?;
    Some(count.unwrap_or(u64::MAX))
}

/// The value of a number in a cell of this width: a number below 2^w, a negative one down to -2^(w-1), or
/// a 32-bit value that stands sign-extended to 64 bits. Any other is refused `ValueOutOfRange`.
pub fn narrow(width: Width, number: Num) -> Result<u64, Refusal>
    ensures { result ≡ ok_or (value_of_number width number) ValueOutOfRange }
{
    let value = match number {
        Num::Plain(n) => narrow_plain(width, n),
        Num::Negative(m) => narrow_negative(width, m),
        Num::Beyond => None,
    };
    value.ok_or(Refusal::ValueOutOfRange)
}

/// The value of a word in a cell of this width. Refused `BadLine` where the word is no number, and then
/// `ValueOutOfRange`.
pub fn read_value(width: Width, word: &[u8]) -> Result<u64, Refusal>
    ensures bad { IsNone (number_of_word word.now) → result ≡ Err BadLine }
    ensures value { IfSome (number_of_word word.now)
        (λ number. result ≡ ok_or (value_of_number width number) ValueOutOfRange) }
{
    let number = read_num(word).ok_or(Refusal::BadLine)?;
    narrow(width, number)
}

/// The values from here on are the 32-bit values from 2^31 on, sign-extended to 64 bits.
const LEAST_SIGN_EXTENDED: u64 = 0xFFFF_FFFF_8000_0000;

/// The value of a number without a sign.
fn narrow_plain(width: Width, n: u64) -> Option<u64>
    ensures { result ≡ value_of_number width (Num.Plain n) }
{
    if n <= width.max_value() {
        Some(n)
    } else if width == Width::W && n >= LEAST_SIGN_EXTENDED {
        Some(n & width.max_value())
    } else {
        None
    }
}

/// The value of a number with a minus sign.
fn narrow_negative(width: Width, m: u64) -> Option<u64>
    ensures { result ≡ value_of_number width (Num.Negative m) }
{
    if m > width.max_value() / 2 + 1 {
        return None;
    }
    Some(m.wrapping_neg() & width.max_value())
}
