//! The names of the AMOs.
ghost use Rattle.std.specs.Prelude.{◌≡◌, Some};
ghost use Rattle.std.specs.List.{list_any};
ghost use Rattle.std.specs.Str.{bytes_eq};
ghost use Rattle.scm_amo.specs.Amos.{amo_name, amo_of_name, is_spelled, orderings};

use crate::AmoKind;
use crate::list::for_each_amo;
use scm_cells::Width;

/// The match on an AMO whose eighteen arms give its name.
macro_rules! match_name {
    (
        ($amo:expr) $variables:tt
        $([$kind:ident, $width:ident, $number:ident, $name:expr, $stored:expr])*
    ) => {
        match $amo {
            $((AmoKind::$kind, Width::$width) => $name,)*
        }
    };
}

/// Returns the first AMO that a word names.
macro_rules! return_named {
    (
        ($word:expr) $variables:tt
        $([$kind:ident, $width:ident, $number:ident, $name:expr, $stored:expr])*
    ) => {
        $(if spells($word, $name) {
            return Some((AmoKind::$kind, Width::$width));
        })*
    };
}

/// The name of an AMO, as `amoadd.w`.
#[tactic(auto, unfolding(crate::specs::Amos::amo_of_name, crate::specs::Amos::is_spelled))]
pub fn name(kind: AmoKind, width: Width) -> &'static str
    ensures name { result.now ≡ amo_name kind width }
    ensures read { amo_of_name result.now ≡ Some (kind, width) }
{
    for_each_amo!(match_name((kind, width)))
}

/// Whether this is what may follow a name: nothing, `.aq`, `.rl` or `.aqrl`.
fn is_ordering(suffix: &[u8]) -> bool
    ensures { result ≡ list_any (λ ordering. bytes_eq suffix.now ordering) orderings }
{
    suffix == b"".as_slice()
        || suffix == b".aq".as_slice()
        || suffix == b".rl".as_slice()
        || suffix == b".aqrl".as_slice()
}

/// Whether a word is this name, alone or with one of the orderings `.aq`, `.rl` and `.aqrl`.
fn spells(word: &[u8], name: &str) -> bool
    ensures { result ≡ is_spelled name.now word.now }
{
    let Some(ordering) = word.strip_prefix(name.as_bytes()) else {
        return false;
    };
    is_ordering(ordering)
}

/// The AMO of a name, which may stand with one of the orderings `.aq`, `.rl` and `.aqrl`; `None` for any other word.
#[tactic(auto, unfolding(crate::specs::Amos::amo_of_name))]
pub fn read_name(word: &[u8]) -> Option<(AmoKind, Width)>
    ensures { result ≡ amo_of_name word.now }
{
    for_each_amo!(return_named(word));
    None
}
