//! Runs of scripts over readers and writers that give and take little, and fail.

use crate::fakes::Wire;
use crate::ran::{Limits, Ran, expect_ran};
use crate::scripts::{ALL_KINDS, ALL_REPLIES, MESSAGE, REPLIES, replies_to};
use scm_book::Book;
use scm_sequences::LONGEST_LINE;
use scm_sessions::{Findings, Port, RunFault, run_script};
use std::alloc::Global;
use std::test::Fail;

/// How many lines `many_reads` gives, more than two 16-bit counts can hold.
const MANY: usize = 140_000;

/// Runs a script on one thread.
fn run_alone(alloc: Global, script: &[u8], limits: Limits) -> Ran {
    let wire = Wire::new();
    let mut reader = Port::new(limits.reader(script, &wire));
    let mut writer = Port::new(limits.writer(alloc, &wire));
    let ended = run_script(
        alloc,
        Book::new(alloc),
        &mut reader,
        &mut writer,
        &mut Findings::new(),
    );
    Ran {
        ended: ended.map(|_| true),
        written: writer.into_inner().taken,
        flushed: wire.replies_flushed.get(),
        is_late: wire.is_late.get(),
    }
}

#[test]
fn replies_are_written_before_more_is_read(rt: HostRuntime) {
    let table = [(MESSAGE, REPLIES), (ALL_KINDS, ALL_REPLIES)];
    for (script, replies) in table {
        for step in [1, 3, 4096] {
            let ran = run_alone(rt.alloc(), script.as_bytes(), Limits::none(step));
            expect_ran(&rt, &ran, Ok(true), replies.as_bytes());
        }
    }
}

// Each line is a read of its own, and its reply is flushed before the next one.
#[test]
fn many_reads(rt: HostRuntime) -> Result<(), Fail> {
    let (mut script, mut replies) = (Vec::new(rt.alloc()), Vec::new(rt.alloc()));
    for _ in 0..MANY {
        script.extend_from_slice(b"A\n")?;
        replies.extend_from_slice(b"? refused 1 bad-line\n")?;
    }
    let ran = run_alone(rt.alloc(), &script, Limits::none(2));
    expect_ran(&rt, &ran, Ok(true), &replies);
    Ok(())
}

#[test]
fn a_read_fault_ends_the_run(rt: HostRuntime) {
    let script = MESSAGE.as_bytes();
    for step in [1, 3, 4096] {
        for limit in 0..=script.len() {
            let limits = Limits {
                read: limit,
                ..Limits::none(step)
            };
            let ran = run_alone(rt.alloc(), script, limits);
            let wanted = replies_to(&script[..limit], REPLIES.as_bytes());
            expect_ran(&rt, &ran, Err(RunFault::ReadFailed), wanted);
        }
    }
}

#[test]
fn a_write_fault_ends_the_run(rt: HostRuntime) {
    let replies = REPLIES.as_bytes();
    for step in [1, 3, 4096] {
        for limit in 0..=replies.len() {
            let limits = Limits {
                write: limit,
                ..Limits::none(step)
            };
            let ran = run_alone(rt.alloc(), MESSAGE.as_bytes(), limits);
            expect_ran(&rt, &ran, Err(RunFault::WriteFailed), &replies[..limit]);
        }
    }
}

#[test]
fn some_lines_are_bad_and_some_ask_for_nothing(rt: HostRuntime) -> Result<(), Fail> {
    let mut script = Vec::new(rt.alloc());
    script.extend_from_slice(b"# a comment\n\n \t\r\n\r\nA list\na fly t\n# \xff\n")?;
    for _ in 0..=LONGEST_LINE {
        script.push(b'#')?;
    }
    script.extend_from_slice(b"\nb ask")?;
    let ran = run_alone(rt.alloc(), &script, Limits::none(100));
    let wanted =
        b"? refused 1 bad-line\na refused 1 bad-line\n? refused 1 bad-line\nb refused 1 bad-line\n";
    assert!(rt; ran.ended == Ok(true) && ran.written.as_slice() == wanted.as_slice());
    // the last line has no line feed
    assert_eq!(rt; ran.flushed, 4);
    Ok(())
}
