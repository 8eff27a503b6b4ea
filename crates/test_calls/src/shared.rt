//! What no clause says: that calls succeed, and that `front` and `meet` show what other passes did.
ghost use Rattle.std.specs.Prelude.{◌≡◌};

use scm_book::{Call, Reply};
use scm_sequences::{MOST_ENTRIES, MOST_SESSIONS, Refusal};
use scm_shared::{Audit, BookNaming, BookToken, Pass, SharedBook};
use std::alloc::Global;
use std::marker::Brand;
use std::process::Abort;
use std::sync::Wait;
use std::test::Fail;

/// A new pass.
pub(crate) fn entered<B: BookNaming, R: Wait + Abort>(rt: &R, shared: &SharedBook<B>) -> Pass<B> {
    match shared.enter(rt) {
        Ok(pass) => pass,
        Err(_) => panic!(rt; "no pass"),
    }
}

/// A call that needs no trace becomes an entry.
fn list<B: BookNaming, R: Wait + Abort>(rt: &R, shared: &SharedBook<B>, pass: &mut Pass<B>) {
    assert!(rt; matches!(shared.call(rt, pass, Call::ListTraces), Reply::Traces(_)));
}

/// Two fronts of a pass that calls nothing itself, after two calls of another one and after one more; what the other two find
/// when they meet, before and after it calls; what both have seen then; and the audit of all three.
fn meetings<B: BookNaming, R: Wait + Abort>(
    rt: &R,
    alloc: Global,
    token: BookToken,
) -> ([u64; 6], Audit)
    requires table { token.table.shared.table_id ≡ B.table }
    requires made { (token.made.name ≡ B.made) × (token.made.parts ≡ B.seats) }
    requires totals { (token.totals.taken.name ≡ B.taken) × (token.totals.delivered.name ≡ B.delivered) × (token.totals.taken.parts ≡ B.parts) }
{
    let shared = SharedBook::<B>::new(alloc, token);
    let mut zero = entered(rt, &shared);
    let mut one = entered(rt, &shared);
    let mut two = entered(rt, &shared);
    list(rt, &shared, &mut zero);
    list(rt, &shared, &mut zero);
    let front = shared.front(&mut two);
    list(rt, &shared, &mut one);
    let next = shared.front(&mut two);
    list(rt, &shared, &mut two);
    let first = shared.meet(&mut zero, &mut one);
    list(rt, &shared, &mut two);
    let second = shared.meet(&mut zero, &mut one);
    let found = [front, next, first, second, zero.seen(), one.seen()];
    let passes = vec![in alloc; zero, one, two].expect(rt, "memory");
    (found, shared.audit(passes, Vec::new(alloc)))
}

/// Whether all is accounted for, with no workers and so many passes.
fn is_whole(audit: &Audit, passes: u16) -> bool {
    audit.agreed && audit.totals_agreed && audit.entered == passes && audit.tallies == 0
}

#[test]
fn passes_meet(rt: HostRuntime) -> Result<(), Fail> {
    let (found, audit) = meetings::<Brand, _>(&rt, rt.alloc(), BookToken::new(rt.alloc())?);
    assert!(rt; found == [2, 3, 4, 5, 5, 5]);
    assert!(rt; is_whole(&audit, 3));
    Ok(())
}

/// The audit where two entered, and the pass that made two of three calls is held back, or both are.
fn held_back<B: BookNaming, R: Wait + Abort>(
    rt: &R,
    alloc: Global,
    token: BookToken,
    both: bool,
) -> Audit
    requires table { token.table.shared.table_id ≡ B.table }
    requires made { (token.made.name ≡ B.made) × (token.made.parts ≡ B.seats) }
    requires totals { (token.totals.taken.name ≡ B.taken) × (token.totals.delivered.name ≡ B.delivered) × (token.totals.taken.parts ≡ B.parts) }
{
    let shared = SharedBook::<B>::new(alloc, token);
    let mut one = entered(rt, &shared);
    let mut other = entered(rt, &shared);
    list(rt, &shared, &mut one);
    list(rt, &shared, &mut one);
    list(rt, &shared, &mut other);
    assert!(rt; shared.front(&mut one) == 3);
    let mut passes = Vec::new(alloc);
    if !both {
        passes.push(other).expect(rt, "memory");
    }
    shared.audit(passes, Vec::new(alloc))
}

/// Whether two passes entered, and the entries of the journal are three, which isn't what was handed in.
fn lacks_calls(audit: &Audit) -> bool {
    audit.entered == 2 && audit.book.entries().len() == 3 && !audit.agreed
}

#[test]
fn a_missing_pass_shows(rt: HostRuntime) -> Result<(), Fail> {
    for both in [false, true] {
        let token = BookToken::new(rt.alloc())?;
        assert!(rt; lacks_calls(&held_back::<Brand, _>(&rt, rt.alloc(), token, both)));
    }
    Ok(())
}

/// A list that is refused, since the journal is full.
fn refused_list<B: BookNaming>(rt: &impl Wait, shared: &SharedBook<B>, pass: &mut Pass<B>) -> bool {
    matches!(
        shared.call(rt, pass, Call::ListTraces),
        Reply::Refused(Refusal::JournalFull)
    )
}

/// How many passes enter beyond the two that did, up to the first that is refused for their number.
fn more_passes<B: BookNaming>(rt: &impl Wait, shared: &SharedBook<B>) -> usize {
    for n in 0..1_000 {
        match shared.enter(rt) {
            Ok(_) => {}
            Err(Refusal::TooManySessions) => return n,
            Err(_) => return 1_000,
        }
    }
    1_000
}

/// What two passes made and have seen after one of them filled the journal, and was refused two more calls, and the other one;
/// how many passes entered in all; and how many entries there are.
fn fill<B: BookNaming, R: Wait + Abort>(
    rt: &R,
    alloc: Global,
    token: BookToken,
) -> ([u64; 4], usize, usize)
    requires table { token.table.shared.table_id ≡ B.table }
    requires made { (token.made.name ≡ B.made) × (token.made.parts ≡ B.seats) }
    requires totals { (token.totals.taken.name ≡ B.taken) × (token.totals.delivered.name ≡ B.delivered) × (token.totals.taken.parts ≡ B.parts) }
{
    let shared = SharedBook::<B>::new(alloc, token);
    let mut one = entered(rt, &shared);
    let mut other = entered(rt, &shared);
    for _ in 0..MOST_ENTRIES {
        list(rt, &shared, &mut one);
    }
    assert!(rt; refused_list(rt, &shared, &mut one) && refused_list(rt, &shared, &mut one));
    assert!(rt; refused_list(rt, &shared, &mut other));
    let passes = more_passes(rt, &shared).saturating_add(2);
    let found = [one.made(), one.seen(), other.made(), other.seen()];
    let audit = shared.audit(Vec::new(alloc), Vec::new(alloc));
    (found, passes, audit.book.entries().len())
}

#[test]
fn full_journal(rt: HostRuntime) -> Result<(), Fail> {
    let (found, passes, entries) = fill::<Brand, _>(&rt, rt.alloc(), BookToken::new(rt.alloc())?);
    let most = MOST_ENTRIES as u64;
    assert!(rt; found == [most, most, 0, most]);
    assert!(rt; passes == MOST_SESSIONS && entries == MOST_ENTRIES);
    Ok(())
}
