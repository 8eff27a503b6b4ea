//! Situations in words: that calls succeed, and words that are full to the last bit.
ghost use Rattle.std.specs.Prelude.{◌≤◌};

use crate::layouts::{layout_up_to, some_layout_up_to};
use crate::situations::{listed_counts, situation, situation_in};
use crate::traces::parts_of;
use scm_frontier::{Layout, Situation, Word};
use std::alloc::Global;
use std::process::Abort;

/// What is done, the bits of a word and the counts that its layout is for, with one cell that is open at first and then holds
/// the greatest value. Counts are as `situations` reads them.
///
/// - `pack`: counts and contents of a situation, which is packed.
/// - `across`: the same, by way of a word of 64 bits in the layout for the counts W and L.
const ROWS: &str = "
    pack 64 W,L: W,L/-1 => kept
    pack 128 W*3,L: W*3,L/-1 => kept
    pack 64 W*2: W*2/-1 => no layout
    pack 128 W*4: W*4/-1 => no layout
    pack 128 L*4: L,0,L,0/? => kept
    pack 128 L*4: 0,L,0,L/? => kept
    pack 64 W,L: W,2147483648/-1 => no word
    pack 64 W,L: W,L/-2 => no word
    pack 64 1*15: 7*15/? => kept
    pack 64 3: 3/? => kept
    across 64 W,L: W,L/? => kept
    across 64 W,L: W,L/-1 => kept
    across 128 W,L: W,L/? => kept
    across 128 W,L: W,L/-1 => kept
    across 64 7,L: W,L/? => no word
    across 64 7,L: W,L/-1 => no word
    across 64 7,L: 7,L/? => kept
    across 64 7,L: 7,L/-1 => kept
";

/// Whether the word stands for the situation.
fn stands_for<W: Word>(
    rt: &impl Abort,
    alloc: Global,
    layout: &Layout,
    word: W,
    situation: &Situation,
) -> bool
    requires { layout.now.bits ≤ W.BITS }
{
    assert!(rt; layout.cells() == 1 && situation.cells() == 1);
    layout.held(word, 0) == situation.value(0)
        && layout.unpack(alloc, word).expect(rt, "memory") == *situation
}

/// Whether the word of the situation stands for it; `None` where the layout has no room for it.
fn is_kept<W: Word>(
    rt: &impl Abort,
    alloc: Global,
    layout: &Layout,
    situation: &Situation,
) -> Option<bool>
    requires { layout.now.bits ≤ W.BITS }
{
    let word = layout.pack::<W>(situation)?;
    Some(stands_for(rt, alloc, layout, word, situation))
}

/// Whether the word of the situation in another layout stands for it; `None` where that has no room for it.
fn is_kept_across<W: Word + Drop>(
    rt: &impl Abort,
    alloc: Global,
    from: &Layout,
    to: &Layout,
    situation: &Situation,
) -> Option<bool>
    requires from { from.now.bits ≤ 64 }
    requires to { to.now.bits ≤ W.BITS }
{
    let word = from.pack::<u64>(situation)?;
    let other = to.pack_word::<W, u64>(from, word)?;
    Some(stands_for(rt, alloc, to, other, situation))
}

fn said_of(is_kept: Option<bool>) -> &'static str {
    match is_kept {
        Some(true) => "kept",
        Some(false) => "changed",
        None => "no word",
    }
}

fn packed<W: Word>(rt: &impl Abort, alloc: Global, less: &[u32], text: &str) -> &'static str {
    let it = situation_in(rt, alloc, text);
    match layout_up_to(rt, alloc, W::BITS, less, &[u64::MAX]) {
        Some(layout) => said_of(is_kept::<W>(rt, alloc, &layout, &it)),
        None => "no layout",
    }
}

fn packed_across<W: Word + Drop>(
    rt: &impl Abort,
    alloc: Global,
    less: &[u32],
    text: &str,
) -> &'static str {
    let it = situation_in(rt, alloc, text);
    let from = some_layout_up_to(rt, alloc, 64, &[u32::MAX, u32::MAX / 2]);
    let to = some_layout_up_to(rt, alloc, W::BITS, less);
    said_of(is_kept_across::<W>(rt, alloc, &from, &to, &it))
}

/// What is said of the rest of a row in words of these bits.
fn said<W: Word + Drop>(
    rt: &impl Abort,
    alloc: Global,
    kind: &str,
    less: &[u32],
    text: &str,
) -> &'static str {
    match kind {
        "pack" => packed::<W>(rt, alloc, less, text),
        _ => packed_across::<W>(rt, alloc, less, text),
    }
}

fn check(rt: &impl Abort, alloc: Global, row: &str) {
    let (first, text, wanted) = parts_of(rt, row);
    let (kind, size) = first.split_once(' ').expect(rt, "bits");
    let (bits, less) = size.split_once(' ').expect(rt, "counts");
    let less = listed_counts(rt, alloc, less);
    let said = match bits {
        "64" => said::<u64>(rt, alloc, kind, &less, text),
        _ => said::<u128>(rt, alloc, kind, &less, text),
    };
    assert!(rt; said == wanted, "{row}: {said}");
}

#[test]
fn situations_are_kept_in_words(rt: HostRuntime) {
    for row in ROWS.trim().lines() {
        check(&rt, rt.alloc(), row);
    }
}

/// Whether a situation with this in its cell has the same word by way of a layout of these values in another order.
fn is_kept_of(rt: &impl Abort, alloc: Global, values: &[u64], held: Option<u64>) -> Option<bool> {
    let from = layout_up_to(rt, alloc, 64, &[3], &[5, u64::MAX]).expect(rt, "64 bits do");
    let to = layout_up_to(rt, alloc, 64, &[3], values).expect(rt, "64 bits do");
    let it = situation(rt, alloc, &[2], &[held]);
    is_kept_across::<u64>(rt, alloc, &from, &to, &it)
}

#[test]
fn values_keep_what_they_are_under_other_numbers(rt: HostRuntime) {
    for (held, there) in [(Some(5), true), (None, true), (Some(u64::MAX), false)] {
        assert!(rt; is_kept_of(&rt, rt.alloc(), &[u64::MAX, 5], held) == Some(true));
        assert!(rt; is_kept_of(&rt, rt.alloc(), &[5, 6], held).is_some() == there);
    }
}
