//! What AMOs store.
ghost use Rattle.std.specs.Prelude.{◌≡◌, ◌<◌};
ghost use Rattle.scm_cells.specs.Numbers.{values_of};
ghost use Rattle.scm_amo.specs.Results.{amo_result};

use crate::AmoKind;
use crate::list::for_each_amo;
use scm_cells::Width;

/// The match on an AMO whose eighteen arms give what it stores for an old value and an operand.
macro_rules! match_stored {
    (
        ($amo:expr, $old_value:expr, $rs2:expr) ($old:ident, $operand:ident)
        $([$kind:ident, $width:ident, $number:ident, $name:expr, $stored:expr])*
    ) => {
        match $amo {
            $((AmoKind::$kind, Width::$width) => {
                let ($old, $operand) = ($old_value as $number, $rs2 as $number);
                u64::from($stored)
            })*
        }
    };
}

/// What an AMO stores where its cell held `old`, with the operand `operand` (rs2). All three are numbers below 2^32
/// or 2^64, by the width.
#[tactic(auto, unfolding(crate::specs::Results::amo_result))]
pub fn apply(kind: AmoKind, width: Width, old: u64, operand: u64) -> u64
    requires old_in_width { old < values_of width }
    requires operand_in_width { operand < values_of width }
    ensures value { result ≡ amo_result kind width old operand }
    ensures in_width { result < values_of width }
{
    for_each_amo!(match_stored((kind, width), old, operand))
}
