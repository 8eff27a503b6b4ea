//! That a question about a set which is lent to another one waits for what that one finds.
ghost use Rattle.std.specs.Prelude.{◌≡◌};

use crate::resting::{NEVER_STORED, assert_found_beside, report_stores};
use crate::shared::entered;
use crate::shared_workers::play_shared;
use scm_book::Book;
use scm_shared::{BookNaming, BookToken, SharedBook};
use std::alloc::Global;
use std::marker::Brand;
use std::process::Abort;
use std::sync::Wait;
use std::test::Fail;
use std::thread;
use std::thread::Threads;

/// So often both stores are reported. So the one mostly asks while the other is at its search.
const TIMES: usize = 200;

const ASK: &str = "ask t => inconsistent";

const WHY: &str = "why t => because 40401";

/// The book after two asked at once about many situations, or for the reason.
fn ask_at_once<B: BookNaming + Send + Sync, R: Threads + Wait + Abort + Sync>(
    rt: &R,
    alloc: Global,
    token: BookToken,
    is_why: bool,
) -> Book
    requires table { token.table.shared.table_id ≡ B.table }
    requires made { (token.made.name ≡ B.made) × (token.made.parts ≡ B.seats) }
    requires totals { (token.totals.taken.name ≡ B.taken) × (token.totals.delivered.name ≡ B.delivered) × (token.totals.taken.parts ≡ B.parts) }
{
    let shared = SharedBook::<B>::new(alloc, token);
    let mut one = entered(rt, &shared);
    let mut other = entered(rt, &shared);
    play_shared(rt, alloc, &shared, &mut one, NEVER_STORED);
    report_stores(rt, alloc, &shared, &mut one, TIMES);
    let question = if is_why { WHY } else { ASK };
    thread::join(
        rt,
        || play_shared(rt, alloc, &shared, &mut one, question),
        || play_shared(rt, alloc, &shared, &mut other, question),
    );
    let passes = vec![in alloc; one, other].expect(rt, "memory");
    let audit = shared.audit(passes, Vec::new(alloc));
    assert!(rt; audit.agreed);
    audit.book
}

#[test]
fn a_question_waits(rt: HostRuntime) -> Result<(), Fail> {
    let book = ask_at_once::<Brand, _>(&rt, rt.alloc(), BookToken::new(rt.alloc())?, false);
    assert_found_beside(&rt, &book, (TIMES + 1) * (TIMES + 1));
    drop(book);
    Ok(())
}

#[test]
fn a_refutation_waits(rt: HostRuntime) -> Result<(), Fail> {
    let book = ask_at_once::<Brand, _>(&rt, rt.alloc(), BookToken::new(rt.alloc())?, true);
    assert_found_beside(&rt, &book, (TIMES + 1) * (TIMES + 1));
    drop(book);
    Ok(())
}
