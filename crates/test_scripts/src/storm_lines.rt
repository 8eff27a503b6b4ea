//! What the callers of a storm ask, line by line: eight sessions, who hinder each other on one trace.

use std::alloc::{AllocError, Global};

/// How many sessions call.
pub(crate) const CALLERS: u16 = 8;

/// How many turns each of them has.
pub(crate) const TURNS: u64 = 200;

/// The most operations that a caller reports between two turns that cut, close or open the trace.
const MOST_REPORTS: u64 = 2;

/// What one caller asks, which works for the process of its number.
#[derive(Drop)]
pub(crate) struct Caller {
    number: u64,
    word: u64,
    reported: u64,
}

impl Caller {
    pub(crate) fn new(number: u16) -> Caller {
        let number = u64::from(number);
        Caller {
            number,
            word: number + 1,
            reported: 0,
        }
    }

    /// The lines of the next turn, which a generator of 48 bits chooses.
    pub(crate) fn turn(&mut self, alloc: Global) -> Result<String, AllocError> {
        self.word = self.word.wrapping_mul(25_214_903_917).wrapping_add(11) & 0xffff_ffff_ffff;
        let kind = (self.word >> 32) & 15;
        if kind >= 13 {
            self.reported = 0;
        }
        let value = (self.word >> 40) % 3;
        match kind {
            0..=3 => self.claims_and_reports(alloc, "sw x", value),
            4..=7 => self.claims_and_reports(alloc, "lw x", value),
            8 | 9 => self.reports(alloc, "amoadd.w y 1", value),
            _ => self.says(alloc, other_words(kind)),
        }
    }

    fn says(&self, alloc: Global, words: &str) -> Result<String, AllocError> {
        let number = self.number;
        format!(in alloc; "p{number} {words}\n")
    }

    /// The report of an access, where there weren't too many.
    fn reports(&mut self, alloc: Global, access: &str, value: u64) -> Result<String, AllocError> {
        if self.reported >= MOST_REPORTS {
            return self.says(alloc, "ask t 0");
        }
        self.reported += 1;
        let number = self.number;
        format!(in alloc; "p{number} do t {number} {access} {value}\n")
    }

    /// The same, with a claim before it.
    fn claims_and_reports(
        &mut self,
        alloc: Global,
        access: &str,
        value: u64,
    ) -> Result<String, AllocError> {
        if self.reported >= MOST_REPORTS {
            return self.says(alloc, "ask t 0");
        }
        let number = self.number;
        let reported = self.reports(alloc, access, value)?;
        format!(in alloc; "p{number} claim t {number}\n{reported}")
    }
}

/// The words of a turn that reports nothing.
fn other_words(kind: u64) -> &'static str {
    match kind {
        10 => "ask t",
        11 => "ask t 0",
        12 => "mark t",
        13 => "back t 0",
        14 => "close t",
        _ => "open t 8 5000 x:w=0 y:w=0",
    }
}
