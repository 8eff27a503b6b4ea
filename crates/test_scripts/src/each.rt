//! Scripts with a thread for each session.

use crate::large::{MANY, SEARCHED, held, large_trace};
use scm_expand::FreeGate;
use scm_sessions::{Ended, Findings, Port, RunFault, run_each};
use scm_shared::BookToken;
use std::alloc::Global;
use std::marker::Brand;
use std::sync::Wait;
use std::test::Fail;
use std::thread::Threads;

/// How a script with a thread for each session ended beside so many workers, and what was written.
pub(crate) fn run_in_groups<T: Threads + Wait + Sync>(
    rt: &T,
    alloc: Global,
    script: &[u8],
    workers: usize,
) -> Result<(Result<Ended, RunFault>, Vec<u8>), Fail> {
    let token = BookToken::new(alloc)?;
    let mut reader = Port::new(script);
    let mut writer = Port::new(Vec::new(alloc));
    let ended = run_each::<Brand, _, _, FreeGate, T>(
        rt,
        alloc,
        token,
        &mut reader,
        &mut writer,
        &mut Findings::new(),
        &FreeGate,
        workers,
    );
    Ok((ended, writer.into_inner()))
}

/// So often a worker may come too late.
const MOST_TRIES: u32 = 20;

/// While a question of one session is searched, a worker searches what the other one reported.
#[test]
fn workers_search_beside_groups(rt: HostRuntime) -> Result<(), Fail> {
    let alloc = rt.alloc();
    let mut script = large_trace(alloc, "a", "t", MANY)?;
    script.push_str("a ask t\n")?;
    script.push_str(large_trace(alloc, "b", "u", MANY)?.as_str())?;
    for _ in 0..MOST_TRIES {
        let (ended, _written) = run_in_groups(&rt, alloc, script.as_bytes(), 1)?;
        if SEARCHED < held(&rt, &ended?.audit.book, b"u") {
            return Ok(());
        }
    }
    Err("no worker searched beside a group".into())
}
