//! The one list of the AMOs, from which their results, their names and their order are made.
ghost use Rattle.std.specs.Prelude.{◌≡◌, slice_get};
ghost use Rattle.scm_amo.specs.Amos.{amos};

use crate::AmoKind;
use scm_cells::Width;

/// Calls a macro with its arguments and the eighteen AMOs, each as its kind, its width, the unsigned type of that
/// width, its name, and what it stores. That is an expression over two numbers of that type, the old value and the
/// operand, whose variables come first.
macro_rules! for_each_amo {
    ($callback:ident $arguments:tt) => {
        for_each_amo! {
            @both_widths $callback $arguments (old, operand)
            [Swap, "amoswap", operand]
            [Add, "amoadd", old.wrapping_add(operand)]
            [And, "amoand", old & operand]
            [Or, "amoor", old | operand]
            [Xor, "amoxor", old ^ operand]
            [Max, "amomax", old.cast_signed().max(operand.cast_signed()).cast_unsigned()]
            [Min, "amomin", old.cast_signed().min(operand.cast_signed()).cast_unsigned()]
            [MaxU, "amomaxu", old.max(operand)]
            [MinU, "amominu", old.min(operand)]
        }
    };
    (
        @both_widths $callback:ident $arguments:tt $variables:tt
        $([$kind:ident, $name:literal, $stored:expr])*
    ) => {
        $callback! {
            $arguments $variables
            $(
                [$kind, W, u32, concat!($name, ".w"), $stored]
                [$kind, D, u64, concat!($name, ".d"), $stored]
            )*
        }
    };
}

pub(crate) use for_each_amo;

/// The array of the kinds and widths.
macro_rules! kinds_and_widths {
    (() $variables:tt $([$kind:ident, $width:ident, $number:ident, $name:expr, $stored:expr])*) => {
        [$((AmoKind::$kind, Width::$width)),*]
    };
}

/// The AMO of this number, from 0 to 17: the kinds in their order, each with `W` before `D`. `None` from 18 on.
pub fn at(i: usize) -> Option<(AmoKind, Width)>
    ensures { result ≡ slice_get amos i }
{
    for_each_amo!(kinds_and_widths()).get(i).copied()
}
