//! How a script runs over ends that give and take little, and fail.

use crate::fakes::{StepReader, StepWriter, Wire};
use scm_sessions::RunFault;
use std::alloc::Global;
use std::process::Abort;

/// How many bytes a reader gives and a writer takes at once, and after how many they fail.
#[derive(Clone, Copy)]
pub(crate) struct Limits {
    pub(crate) step: usize,
    pub(crate) read: usize,
    pub(crate) write: usize,
}

impl Limits {
    /// No end that fails.
    pub(crate) fn none(step: usize) -> Limits {
        Limits {
            step,
            read: usize::MAX,
            write: usize::MAX,
        }
    }

    /// The reader of a script.
    pub(crate) fn reader<'a>(self, script: &'a [u8], wire: &'a Wire) -> StepReader<'a> {
        StepReader {
            script,
            step: self.step,
            limit: self.read,
            wire,
        }
    }

    /// The writer of its replies.
    pub(crate) fn writer(self, alloc: Global, wire: &Wire) -> StepWriter<'_> {
        StepWriter {
            taken: Vec::new(alloc),
            step: self.step,
            limit: self.write,
            wire,
        }
    }
}

/// How a script ran: whether its audit agreed, where it has one, or its fault; what was written, and what the ends saw.
#[derive(Drop)]
pub(crate) struct Ran {
    pub(crate) ended: Result<bool, RunFault>,
    pub(crate) written: Vec<u8>,
    pub(crate) flushed: usize,
    pub(crate) is_late: bool,
}

/// Stops the test where a run didn't end so, or another text was written, or a reply came late.
pub(crate) fn expect_ran(
    rt: &impl Abort,
    ran: &Ran,
    ended: Result<bool, RunFault>,
    written: &[u8],
) {
    assert!(rt;
        ran.ended == ended && !ran.is_late,
        "written are {} bytes",
        ran.written.len()
    );
    assert!(rt;
        ran.written.as_slice() == written,
        "wanted are {} bytes",
        written.len()
    );
}
