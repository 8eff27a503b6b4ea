//! One source and its tallies, and what settling says of them.
ghost use Rattle.std.specs.Prelude.{◌≡◌};

use scm_results::{Fate, Naming, Results, Tally, Token, Totals};
use std::alloc::Global;
use std::marker::Brand;
use std::process::Abort;

/// Counts with two tallies, close to the greatest total and beyond it.
fn count<B: Naming>(
    rt: &impl Abort,
    totals: &mut Totals<B>,
    first: &mut Tally<B>,
    second: &mut Tally<B>,
) {
    let mut outcomes = Results::new();
    outcomes.deliver(Fate::Accepted);
    outcomes.deliver(Fate::Stale);
    totals.take(7, first);
    totals.add(&outcomes, second);
    totals.take(usize::MAX, second);
    assert!(rt; first.taken() == 7);
    assert!(rt; second.taken() == u64::MAX - 7);
    assert!(rt; second.delivered() == 2);
    assert!(rt; totals.results().taken == u64::MAX);
    assert!(rt; totals.given() == 2);
}

/// Counts so, and settles with or without the second tally.
fn settled<B: Naming>(rt: &impl Abort, alloc: Global, token: Token, both: bool) -> bool
    requires taken { token.taken.name ≡ B.taken }
    requires delivered { token.delivered.name ≡ B.delivered }
    requires parts { token.taken.parts ≡ B.parts }
{
    let mut totals = Totals::<B>::new(token);
    let mut first = totals.tally().expect(rt, "a tally");
    let mut second = totals.tally().expect(rt, "another tally");
    count(rt, &mut totals, &mut first, &mut second);
    let mut tallies = Vec::new(alloc);
    tallies.push(first).expect(rt, "memory");
    if both {
        tallies.push(second).expect(rt, "memory");
    }
    totals.settle(tallies)
}

#[test]
fn tallies_add_up_where_none_is_missing(rt: HostRuntime) {
    for both in [true, false] {
        assert!(rt; settled::<Brand>(&rt, rt.alloc(), Token::new(), both) == both);
    }
}
