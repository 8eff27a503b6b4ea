//! The words of the tests: sessions, names, and calls and replies as the lines of a script say them.

use scm_book::{Book, Call, Decl, Reply, Witness};
use scm_cells::{Initial, Name, Num, Width, read_count};
use scm_lowering::read_access;
use std::alloc::Global;
use std::process::Abort;
use std::str::SplitWhitespace;

/// The session of the tests.
pub(crate) const ANNA: u16 = 1;

/// Each of two processes stores 1 in its own cell, and then loads 0 from the other's.
pub(crate) const STORE_BUFFERING: &str = "open t 2 100 x y; claim t 0; claim t 1;\
    do t 0 sw x 1; do t 0 lw y 0; do t 1 sw y 1; do t 1 lw x 0";

pub(crate) fn name(rt: &impl Abort, word: &[u8]) -> Name {
    Name::read(word).expect(rt, "a name")
}

fn number(rt: &impl Abort, word: Option<&str>) -> u64 {
    read_count(word.expect(rt, "a word").as_bytes()).expect(rt, "a number")
}

/// A cell of 32 bits that holds this number at first, or 0.
fn cell(rt: &impl Abort, word: &str) -> Decl {
    let (word, initial) = word.split_once('=').unwrap_or((word, "0"));
    Decl {
        name: name(rt, word.as_bytes()),
        width: Width::W,
        initial: Initial::Given(Num::Plain(number(rt, Some(initial)))),
    }
}

fn open(rt: &impl Abort, alloc: Global, name: Name, mut words: SplitWhitespace<'_>) -> Call {
    let (procs, budget) = (number(rt, words.next()), number(rt, words.next()));
    let mut cells = Vec::new(alloc);
    for word in words {
        cells.push(cell(rt, word)).expect(rt, "memory");
    }
    Call::OpenTrace {
        name,
        procs,
        budget,
        cells,
    }
}

fn report(rt: &impl Abort, alloc: Global, name: Name, mut words: SplitWhitespace<'_>) -> Call {
    let process = number(rt, words.next());
    let mut access = Vec::new(alloc);
    for word in words {
        access.push(word.as_bytes()).expect(rt, "memory");
    }
    Call::Report {
        name,
        process,
        access: read_access(&access).expect(rt, "an access"),
    }
}

fn call_with(rt: &impl Abort, verb: &str, name: Name, word: Option<&str>) -> Call {
    let number = number(rt, word);
    match verb {
        "claim" => Call::ClaimProcess {
            name,
            process: number,
        },
        "release" => Call::ReleaseProcess {
            name,
            process: number,
        },
        "back" => Call::GoBack { name, mark: number },
        "raise" => Call::RaiseBudget {
            name,
            budget: number,
        },
        _ => panic!(rt; "no call: {verb}"),
    }
}

fn question(rt: &impl Abort, verb: &str, name: Name, word: Option<&str>) -> Call {
    let mark = word.map(|word| number(rt, Some(word)));
    match verb {
        "ask" => Call::Ask { name, mark },
        "why" => Call::Why { name, mark },
        "cycle" => Call::Cycle { name, mark },
        _ => call_with(rt, verb, name, word),
    }
}

/// The call that a line says, as `open t 2 100 x y=5`, `do t 0 sw x 1`, `ask t` or `list`.
pub(crate) fn call_of(rt: &impl Abort, alloc: Global, line: &str) -> Call {
    let mut words = line.split_whitespace();
    let verb = words.next().unwrap_or("");
    let Some(word) = words.next() else {
        return Call::ListTraces;
    };
    let name = name(rt, word.as_bytes());
    match verb {
        "open" => open(rt, alloc, name, words),
        "do" => report(rt, alloc, name, words),
        "mark" => Call::SetMark { name },
        "close" => Call::CloseTrace { name },
        _ => question(rt, verb, name, words.next()),
    }
}

/// Whether the places are those of a text, which may leave them out.
fn are_places(text: &str, places: &[u8]) -> bool {
    text.is_empty()
        || text
            .bytes()
            .eq(places.iter().map(|place| b'0'.wrapping_add(*place)))
}

/// Whether the reply is what a line says, as `ok`, `consistent`, `consistent 01`, `because 4` (situations) or `refused not-owner`.
pub(crate) fn says(reply: &Reply, line: &str) -> bool {
    let (verb, rest) = line.split_once(' ').unwrap_or((line, ""));
    let is_count = |count: usize| read_count(rest.as_bytes()) == Some(count as u64);
    match reply {
        Reply::Done => line == "ok",
        Reply::MarkSet(mark) => verb == "ok" && is_count(*mark as usize),
        Reply::Consistent(witness) => {
            let Witness { schedule, fixed } = &**witness;
            verb == "consistent" && are_places(rest, schedule) && fixed.is_empty()
        }
        Reply::Inconsistent => line == "inconsistent",
        Reply::Because(situations) => verb == "because" && is_count(situations.len()),
        Reply::Refused(refusal) => verb == "refused" && rest == refusal.text(),
        _ => false,
    }
}

/// Anna makes the calls of a text, between which there is a semicolon. Each is answered what stands behind its arrow, or `ok`.
pub(crate) fn play(rt: &impl Abort, alloc: Global, book: &mut Book, text: &str) {
    for line in text.split(';') {
        let (line, wanted) = line.split_once("=>").unwrap_or((line, "ok"));
        let reply = book.call(ANNA, call_of(rt, alloc, line));
        assert!(rt; says(&reply, wanted.trim()), "{line}");
    }
}

/// A book after these calls.
pub(crate) fn played(rt: &impl Abort, alloc: Global, text: &str) -> Book {
    let mut book = Book::new(alloc);
    play(rt, alloc, &mut book, text);
    book
}
