//! Words with what is kept beside them, at real sizes: each is found at its place, and no other.

use scm_words::WordMap;
use std::alloc::Global;
use std::process::Abort;

/// So many words are added, each of them this far from the one before, with its number beside it.
fn numbered(rt: &impl Abort, alloc: Global, many: u32, step: u64) -> WordMap<u64, u32> {
    let mut words = WordMap::new(alloc);
    for i in 0..many {
        let word = u64::from(i).wrapping_mul(step);
        assert!(rt; !words.contains(word));
        words.push(word, i).expect(rt, "memory");
    }
    words
}

/// Whether each of these words is found at its place with its number, and the number after the word isn't there.
fn are_found(words: &WordMap<u64, u32>, step: u64) -> bool {
    for place in 0..words.len() {
        let word = (place as u64).wrapping_mul(step);
        let is_found = words.place_of(word) == Some(place) && words.word(place) == word;
        if !is_found
            || *words.value(place) as usize != place
            || words.contains(word.wrapping_add(1))
        {
            return false;
        }
    }
    true
}

#[test]
fn many_words_are_found_at_their_places(rt: HostRuntime) {
    for step in [2, 1 << 20, 1 << 40, 0x9E37_79B9_7F4A_7C16] {
        let words = numbered(&rt, rt.alloc(), 5_000, step);
        assert!(rt; words.len() == 5_000 && are_found(&words, step));
    }
}

#[test]
fn a_value_is_put_in_place_of_another(rt: HostRuntime) {
    let mut words = numbered(&rt, rt.alloc(), 100, 2);
    assert!(rt; words.len() == 100);
    words.set_value(40, 7);
    assert!(rt; words.len() == 100);
    assert!(rt; (*words.value(39), *words.value(40), *words.value(41)) == (39, 7, 41));
}
