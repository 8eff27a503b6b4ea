//! The journal as it is written, to a writer that fails too.
ghost use Rattle.std.specs.Prelude.{◌≡◌, false, IfOk};
ghost use Rattle.scm_sessions.specs.Script.{has_failed};
ghost use Rattle.scm_sessions.specs.inner.JournalText.{AreNamed};

use crate::fakes::{StepWriter, Wire};
use scm_book::Book;
use scm_cells::Name;
use scm_sessions::{Findings, Port, RunFault, run_script, write_journal};
use std::alloc::Global;
use std::test::Fail;

const SCRIPT: &str = "bob open t 1 10 x:w=0\namy claim t 0\nbob list\namy close t\nbob mark t\n";

const JOURNAL: &str = "journal 5\n\
    0 bob 0 ok\n\
    1 amy 0 ok\n\
    2 bob 1 traces 1 t\n\
    3 amy 1 refused 9 not-owner\n\
    4 bob 2 ok 0\n";

/// A port to a writer that fails after `limit` bytes.
fn port_of(alloc: Global, wire: &Wire, limit: usize) -> Port<StepWriter<'_>>
    ensures { has_failed result ≡ false }
{
    Port::new(StepWriter {
        taken: Vec::new(alloc),
        step: 3,
        limit,
        wire,
    })
}

/// The book and the names of a run over the script, whose replies go over the wire.
fn run(alloc: Global, wire: &Wire) -> Result<(Book, Vec<Name>), RunFault>
    ensures { IfOk result (λ run. AreNamed run.1.items run.0.journal) }
{
    let mut reader = Port::new(SCRIPT.as_bytes());
    let mut replies = port_of(alloc, wire, usize::MAX);
    run_script(
        alloc,
        Book::new(alloc),
        &mut reader,
        &mut replies,
        &mut Findings::new(),
    )
}

/// What `write_journal` answers, and the bytes that a writer takes of it which fails after `limit`.
fn written(
    alloc: Global,
    wire: &Wire,
    book: &Book,
    names: &[Name],
    limit: usize,
) -> (Result<(), RunFault>, Vec<u8>)
    requires { AreNamed names.now book.now.journal }
{
    let mut writer = port_of(alloc, wire, limit);
    let ended = write_journal(&mut writer, book, names);
    (ended, writer.into_inner().taken)
}

#[test]
fn a_run_has_its_journal(rt: HostRuntime) -> Result<(), Fail> {
    let wire = Wire::new();
    let (book, names) = run(rt.alloc(), &wire)?;
    let (ended, taken) = written(rt.alloc(), &wire, &book, &names, usize::MAX);
    assert!(rt; ended == Ok(()) && taken.as_slice() == JOURNAL.as_bytes());
    // the wire counts the lines of the replies and those of the journal
    assert_eq!(rt; wire.replies_flushed.get(), 11);
    for limit in 0..=JOURNAL.len() {
        let (ended, taken) = written(rt.alloc(), &wire, &book, &names, limit);
        assert!(rt;
            ended == Err(RunFault::WriteFailed) && taken.len() == limit,
            "at {limit}"
        );
        assert!(rt; JOURNAL.as_bytes().starts_with(&taken), "at {limit}");
    }
    Ok(())
}
