//! A worked sum: that a total stays at the greatest number.
use scm_results::{Fate, Results};

const FATES: [Fate; 5] = [
    Fate::Accepted,
    Fate::Known,
    Fate::Stale,
    Fate::Full,
    Fate::Refused,
];

#[test]
fn counts_each_fate_and_adds_them(rt: HostRuntime) {
    let mut results = Results::new();
    results.known = u64::MAX - 1;
    results.take(7);
    for fate in FATES {
        results.deliver(fate);
    }
    let other = results;
    results.add(&other);
    let totals = FATES.map(|fate| results.of(fate));
    assert!(rt; totals == [2, u64::MAX, 2, 2, 2] && results.taken == 14);
    assert!(rt; results.delivered() == u64::MAX && other.delivered() == u64::MAX);
}
