//! More tasks than short scripts lead to.
use scm_book::{Book, run_events};
use scm_expand::{Outcome, Task, expand};
use scm_sessions::{Findings, Port, run_script};
use std::alloc::{AllocError, Global};
use std::process::Abort;
use std::test::Fail;

/// The book after a script.
fn book_after(rt: &impl Abort, alloc: Global, script: &[u8]) -> Book {
    let mut reader = Port::new(script);
    let mut writer = Port::new(Vec::new(alloc));
    let ended = run_script(
        alloc,
        Book::new(alloc),
        &mut reader,
        &mut writer,
        &mut Findings::new(),
    );
    let (book, _) = ended.expect(rt, "the run ended without a fault");
    book
}

/// Two processes, each of which makes this many stores in its own cell.
fn grid(alloc: Global, stores: u32) -> Result<String, AllocError> {
    let mut script = String::new(alloc);
    script.push_str("a open t 2 10000 x:w=0 y:w=0\na claim t 0\na claim t 1\n")?;
    for value in 1..=stores {
        let lines = format!(in alloc; "a do t 0 sw x {value}\na do t 1 sw y {value}\n")?;
        script.push_str(lines.as_str())?;
    }
    Ok(script)
}

/// What comes of these tasks.
fn expand_all(
    rt: &impl Abort,
    alloc: Global,
    tasks: Vec<Task>,
) -> Result<Vec<Outcome>, AllocError> {
    let mut outcomes = Vec::new(alloc);
    for task in tasks {
        let Ok(outcome) = expand(task) else {
            panic!(rt; "no memory");
        };
        outcomes.push(outcome)?;
    }
    Ok(outcomes)
}

/// A hundred tasks, or as many as there are, are taken and delivered: how many they were, how many of them led to new
/// situations, and how many to known ones.
fn work_round(rt: &impl Abort, alloc: Global, book: &mut Book) -> (usize, u64, u64) {
    let tasks = book.take(100).expect(rt, "memory");
    let taken = tasks.len();
    let outcomes = expand_all(rt, alloc, tasks).expect(rt, "memory");
    let delivered = book.deliver(outcomes);
    (taken, delivered.accepted, delivered.known)
}

/// The book holds what forty rounds left: a run over no event changed nothing.
fn assert_as_left(rt: &impl Abort, book: &Book) {
    assert!(rt; book.entries().len() == 83 && book.results().taken == 1640);
}

/// Workers go over two processes of 40 stores round by round. In round k each of the k situations with k - 1 operations has
/// two tasks, and all come though a hundred were asked for; they lead to k + 1 new situations.
#[test]
fn more_tasks_than_are_there(rt: HostRuntime) -> Result<(), Fail> {
    let script = grid(rt.alloc(), 40)?;
    let mut book = book_after(&rt, rt.alloc(), script.as_bytes());
    for round in 1..=40 {
        let (taken, accepted, known) = work_round(&rt, rt.alloc(), &mut book);
        assert!(rt;
            taken == 2 * round && accepted == round as u64 + 1 && known == round as u64 - 1
        );
    }
    let Ok((book, replies)) = run_events(rt.alloc(), book, Vec::new(rt.alloc())) else {
        return Err("no memory for no event".into());
    };
    assert!(rt; replies.is_empty());
    assert_as_left(&rt, &book);
    Ok(())
}
