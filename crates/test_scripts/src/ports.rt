//! A port whose writer takes little, or fails.

use crate::fakes::{StepWriter, Wire};
use scm_book::Reply;
use scm_sessions::{Port, write_reply};
use std::alloc::Global;
use std::process::Abort;

/// Writes `? ok` by writes of at most `step` bytes to a writer that fails after `limit` bytes: what is there then, how often
/// the writer was asked, and whether all was well, and flushed.
fn written(rt: &impl Abort, alloc: Global, step: usize, limit: usize) -> (Vec<u8>, usize, bool) {
    let wire = Wire::new();
    let mut port = Port::new(StepWriter {
        taken: Vec::new(alloc),
        step,
        limit,
        wire: &wire,
    });
    let is_well = write_reply(&mut port, None, &Reply::Done).is_ok();
    assert!(rt; is_well == (wire.replies_flushed.get() == 1));
    (port.into_inner().taken, wire.writes.get(), is_well)
}

#[test]
fn writes_go_out_in_steps(rt: HostRuntime) {
    for step in [1, 3, 9] {
        let (taken, writes, is_well) = written(&rt, rt.alloc(), step, usize::MAX);
        assert!(rt;
            is_well && taken.as_slice() == b"? ok\n".as_slice(),
            "at {step}"
        );
        assert!(rt; writes <= taken.len(), "at {step}");
    }
}

/// Each write takes a byte at least, but for the one that fails or takes none; at 5 bytes it is the flush that fails.
#[test]
fn a_failed_writer_is_not_asked_again(rt: HostRuntime) {
    let table = [
        (9, 5, "? ok\n"),
        (9, 4, "? ok"),
        (1, 3, "? o"),
        (0, 10, ""),
        (3, 0, ""),
    ];
    for (step, limit, wanted) in table {
        let (taken, writes, is_well) = written(&rt, rt.alloc(), step, limit);
        assert!(rt;
            !is_well && taken.as_slice() == wanted.as_bytes(),
            "at {step} and {limit}"
        );
        assert!(rt;
            writes <= taken.len().wrapping_add(1),
            "at {step} and {limit}"
        );
    }
}
