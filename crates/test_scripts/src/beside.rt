//! Scripts run over a shared book, beside workers.

use crate::fakes::Wire;
use crate::ran::{Limits, Ran, expect_ran};
use crate::scripts::{ALL_KINDS, ALL_REPLIES, MESSAGE, REPLIES, replies_to};
use scm_expand::FreeGate;
use scm_sessions::{Findings, Port, RunFault, run_with_workers};
use scm_shared::{Audit, BookToken};
use std::alloc::Global;
use std::marker::Brand;
use std::sync::Wait;
use std::test::Fail;
use std::thread::Threads;

/// Whether the audit agrees, with a tally of each worker and of the collector.
pub(crate) fn is_agreed(audit: &Audit, workers: usize) -> bool {
    audit.agreed && audit.totals_agreed && audit.tallies as usize == workers.saturating_add(1)
}

/// Runs a script beside so many workers.
fn run_beside<T: Threads + Wait + Sync>(
    rt: &T,
    alloc: Global,
    script: &[u8],
    limits: Limits,
    workers: usize,
) -> Result<Ran, Fail> {
    let wire = Wire::new();
    let mut reader = Port::new(limits.reader(script, &wire));
    let mut writer = Port::new(limits.writer(alloc, &wire));
    let token = BookToken::new(alloc)?;
    let ended = run_with_workers::<Brand, _, _, FreeGate, T>(
        rt,
        alloc,
        token,
        &mut reader,
        &mut writer,
        &mut Findings::new(),
        &FreeGate,
        workers,
    );
    Ok(Ran {
        ended: ended.map(|ended| is_agreed(&ended.audit, workers)),
        written: writer.into_inner().taken,
        flushed: wire.replies_flushed.get(),
        is_late: wire.is_late.get(),
    })
}

#[test]
fn replies_go_out_beside_workers(rt: HostRuntime) -> Result<(), Fail> {
    for workers in 0..5 {
        for (script, replies) in [(MESSAGE, REPLIES), (ALL_KINDS, ALL_REPLIES)] {
            let ran = run_beside(&rt, rt.alloc(), script.as_bytes(), Limits::none(7), workers)?;
            expect_ran(&rt, &ran, Ok(true), replies.as_bytes());
        }
    }
    Ok(())
}

#[test]
fn a_read_fault_ends_the_workers(rt: HostRuntime) -> Result<(), Fail> {
    let script = MESSAGE.as_bytes();
    for read in [0, 1, 20, 21, 60, 80, script.len()] {
        let limits = Limits {
            read,
            ..Limits::none(8)
        };
        let ran = run_beside(&rt, rt.alloc(), script, limits, 2)?;
        let (front, _) = script.split_at_checked(read).ok_or("a place")?;
        let wanted = replies_to(front, REPLIES.as_bytes());
        expect_ran(&rt, &ran, Err(RunFault::ReadFailed), wanted);
    }
    Ok(())
}

#[test]
fn a_write_fault_ends_the_workers(rt: HostRuntime) -> Result<(), Fail> {
    let replies = REPLIES.as_bytes();
    for write in [0, 1, 5, 20, 40, replies.len()] {
        let limits = Limits {
            write,
            ..Limits::none(8)
        };
        let ran = run_beside(&rt, rt.alloc(), MESSAGE.as_bytes(), limits, 2)?;
        let (front, _) = replies.split_at_checked(write).ok_or("a place")?;
        expect_ran(&rt, &ran, Err(RunFault::WriteFailed), front);
    }
    Ok(())
}
