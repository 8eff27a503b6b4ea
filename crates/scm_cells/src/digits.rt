//! Words of digits.
ghost use Rattle.std.specs.Prelude.{◌≡◌, ℕ, ◌+◌, ◌*◌, IsTrue, SomeIff, option_map};
ghost use Rattle.scm_cells.specs.Numbers.{radix_of, is_digit_of, digit_value_in, number_of_digits, held};

/// The base of a number's digits.
#[derive(Clone, Copy)]
pub enum Base {
    Decimal,
    Hexadecimal,
}

/// A number without its sign, or `None` in place of one of 2^64 or more.
pub type Magnitude = Option<u64>;

impl Base {
    /// How many digits there are.
    fn radix(self) -> u64
        ensures { result ≡ radix_of self }
    {
        match self {
            Base::Decimal => 10,
            Base::Hexadecimal => 16,
        }
    }

    /// The value of a digit, or `None` where the byte is no digit of this base.
    fn digit(self, byte: u8) -> Option<u64>
        ensures { SomeIff result (IsTrue (is_digit_of self byte)) (digit_value_in self byte) }
    {
        let value = match (self, byte) {
            (_, b'0'..=b'9') => byte - b'0',
            (Base::Hexadecimal, b'A'..=b'F') => byte - b'A' + 10,
            (Base::Hexadecimal, b'a'..=b'f') => byte - b'a' + 10,
            _ => return None,
        };
        Some(u64::from(value))
    }

    /// The number with one more digit.
    fn append(self, number: Magnitude, digit: u64) -> Magnitude
        ensures { (n : ℕ) → number ≡ held n → result ≡ held (n * radix_of self + digit) }
    {
        number?.checked_mul(self.radix())?.checked_add(digit)
    }
}

/// The number that one or more digits stand for, or `None` where the word isn't that. Its length has no limit.
pub fn read_digits(word: &[u8], base: Base) -> Option<Magnitude>
    ensures { result ≡ option_map held (number_of_digits base word.now) }
{
    if word.is_empty() {
        return None;
    }
    let mut number = Some(0);
    for &byte in word {
        let digit = base.digit(byte)?;
        number = base.append(number, digit);
    }
    Some(number)
}
