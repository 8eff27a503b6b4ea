//! Derivations, judged, and found where there are some: worked examples.
use crate::litmus::ROWS;
use crate::traces::{INITIALS, lengths_in, parts_of, read, sequences_in, sequences_of};
use scm_cycles::find_cycle;
use scm_orders::{Derivation, Fact, Line, Place, Rule, orders_refute};
use scm_sequences::{Lengths, Sequences};
use std::alloc::Global;
use std::process::Abort;

/// Traces of four processes, cut where there is a mark, and derivations as replies write them.
const LISTS: &str = "
    0Wx1 0Ry0 1Wy1 1Rx0: 0.1<1.0:before-all 0.0<1.1:joined:0 1.1<1.1:after-all:1 => refuted
    0Wx1 0Wy1 1Ry1 1Rx0: 0.1~1.0:source 0.0<1.1:joined:0 1.1<1.1:after-all:1 => refuted
    0Rx1 0Wy1 1Ry1 1Wx1: 1.1<0.0:after-all 0.1<1.0:after-all 1.1<1.1:joined:0:1 => refuted
    0Rx1 0Wy1 1Ry1 1Wx1: 1.1<0.0:after-all 0.1<1.0:after-all 0.1<0.0:joined:1:0 => refuted
    0Wx1 0Wx2 1Rx2 1Rx1: 0.1~1.0:source 1.1<1.1:after-all:0 => refuted
    0Wx1 0Wx2 1Rx2 1Rx1: 0.1~1.0:source 0.0~1.1:source 0.1<0.0:after-source:1:0 => refuted
    0Rx7: 0.0<0.0:after-all => refuted
    0Ux0>1 1Ux0>2: 0.0<1.0:before-all 1.0<1.0:after-all:0 => refuted
    0Ux0>1 1Ux0>2: 0.0<1.0:before-all 1.0<0.0:before-all 0.0<0.0:joined:0:1 => refuted
    0Wx5 1Ux5>6 2Ux5>7: 0.0~1.0:source 0.0~2.0:source 1.0<2.0:before-all:0:1 2.0<1.0:before-all:1:0 1.0<1.0:joined:2:3 => refuted
    0Wx1 1Rx1 1Wx2 1Wy1 2Ry1 2Rx1: 0.0~1.0:source 1.2~2.0:source 0.0/2.1:hidden:1.1:0:1 2.1<2.1:after-all:2 => refuted
    0Wy1 1Ry1 1Wx1 2Ry1 2Wx1 3Rx1 3Ry0: 0.0~1.0:source 0.0~2.0:source 0.0<3.0:after-all:0:1 3.1<3.1:after-all:2 => refuted
    0Wx1 0Wy1 1Wx1 1Wz1 2Ry1 2Rz1 2Wx2 2Wy2 3Ry2 3Rx1: 0.1~2.0:source 1.1~2.1:source 2.3~3.0:source 3.1<2.2:before-all:0:1 3.1<3.1:joined:3:2 => refuted
    0Ro1 1Ro2: -~0.0:source 1.0<1.0:after-all:0 => refuted
    0Ro1 0Wo2 1Ro2 1Ro1: -~0.0:source 0.1~1.0:source:0 1.1<1.1:after-all:1 => refuted
    0Rx0: 0.0<0.0:after-all => open
    0Ro1 1Ro1: -~0.0:source 1.0<1.0:after-all:0 => open
    0Ro1 0Wo2 1Ro2 1Ro1: 0.1~1.0:source 1.1<1.1:after-all:0 => open
    0Wx1 1Rx1 1Wx2 1Wy1 2Ry1 2Rx1: 0.0~1.0:source 1.2~2.0:source 0.0/2.1:hidden:1.0:0:1 2.1<2.1:after-all:2 => open
    0Wx1 1Rx1 1Wx2 1Wy1 2Ry1 2Rx1: 0.0~1.0:source 1.2~2.0:source 0.0/2.1:hidden:1.1:1 2.1<2.1:after-all:2 => open
    0Wx1 1Rx1 1Wx2 1Wy1 2Ry1 2Rx1: 0.0~1.0:source 1.2~2.0:source 0.0/2.1:hidden:1.1:0 2.1<2.1:after-all:2 => open
    0Wy1 1Ry1 1Wx1 2Ry1 2Wx1 3Rx1 3Ry0: 0.0~1.0:source 0.0~2.0:source 0.0<3.0:after-all:0 3.1<3.1:after-all:2 => open
    0Wx1 0Wy1 1Wx1 1Wz1 2Ry1 2Rz1 2Wx2 2Wy2 3Ry2 3Rx1: 0.1~2.0:source 1.1~2.1:source 2.3~3.0:source 3.1<2.2:before-all:0 3.1<3.1:joined:3:2 => open
    0Wx1 0Wx2 1Wx1 2Rx2 2Rx1: 0.1~2.0:source 2.1<2.1:after-all:0 => open
    0Wx1 0Wx2 1Rx2 1Rx1: 0.0~1.1:source 0.1<0.0:after-source:0 => open
    0Wx1 0Ry0 1Wy1 1Rx0: => open
    0Wx1 0Ry0 1Wy1 1Rx0: 0.1<1.0:before-all 0.0<1.1:joined:0 => open
    0Wx1 0Ry0 1Wy1 1Rx0: 0.1<1.0:before-all 0.0<1.1:joined 1.1<1.1:after-all:1 => open
    0Wx1 0Ry0 1Wy1 1Rx0: 0.1<1.0:before-all 0.0<1.1:joined:1 1.1<1.1:after-all:1 => open
    0Wx1 0Ry0 1Wy1 1Rx0: 0.1<1.0:before-all 0.0<1.1:joined:2 1.1<1.1:after-all:1 => open
    0Wx1 0Ry0 1Wy1 1Rx0: 0.1<1.0:before-all 0.0<1.1:joined:0:0 1.1<1.1:after-all:1 => open
    0Wx1 0Ry0 1Wy1 1Rx0: 0.1<1.0:before-all 0.0<1.1:joined:0 1.1<1.1:after-all:1:3 => open
    0Wx1 0Ry0 1Wy1 1Rx0: 0.1<1.0:before-all 0.0<1.1:joined:0 1.1<1.1:after-all:1:4294967295 => open
    0Wx1 0Ry0 1Wy1 1Rx0: 0.1<1.0:before-all 0.0<1.1:joined:0 1.2<1.1:after-all:1 => open
    0Wx1 0Ry0 1Wy1 1Rx0: 0.1<1.0:before-all 0.0<1.1:joined:0 1.1<1.1:before-all:1 => open
    0Wx1 0Ry0 1Wy1 1Rx0: 0.1<1.0:before-all 0.0<1.1:joined:0 255.4294967295<255.4294967295:after-all:1 => open
    0Wx1 0Wy1 1Ry1 1Rx0: 0.1<1.0:before-all 0.0<1.1:joined:0 1.1<1.1:after-all:1 => open
    0Wx1: 0.0<0.0:joined => open
    0Wx1: 0.0<0.0:joined:0 => open
    0Wx1: 0.0<0.0:after-all => open
    0Rx0: 0.0<0.0:before-all => open
    0Wx1 0Ry0 1Wy1 1Rx0 /: 0.1<1.0:before-all 0.0<1.1:joined:0 1.1<1.1:after-all:1 => refuted
    0Wx1 0Ry0 1Wy1 / 1Rx0: 0.1<1.0:before-all 0.0<1.1:joined:0 1.1<1.1:after-all:1 => open
";

/// Writes of 2 and 1 by two processes, each of which then reads what the other one wrote: only cases refute it.
const CROSSED: &str = "0Wx2 0Wx2 0Rx1 1Wx1 1Wx1 1Rx2";

/// Its refutation by two cases.
const CASES: &str =
    "0.1<1.1:assumed 0.1/1.2:hidden:1.1:0 1.2<1.2:after-all:1 1.1<0.1:lemma:2 1.1/0.2:hidden:0.1:3 0.2<0.2:after-all:4";

/// Lists of lines for that trace.
const CASE_LISTS: &str = "
    two sources: 0.1~1.2:assumed 1.1<0.1:after-source:0 1.1/0.2:hidden:0.1:1 0.2<0.2:after-all:2 0.1!1.2:lemma:3 0.0~1.2:assumed 1.1<0.0:after-source:5 1.1/0.2:hidden:0.0:6 0.2<0.2:after-all:7 0.0!1.2:lemma:8 1.2<1.2:after-all:4:9 => refuted
    the first assumption holds: 0.0<0.1:assumed 0.1<1.1:assumed 0.1/1.2:hidden:1.1:1 1.2<1.2:after-all:2 0.0<0.1:joined 1.1<0.1:lemma:3:4 1.1/0.2:hidden:0.1:5 0.2<0.2:after-all:6 => refuted
    the second does: 0.1<1.1:assumed 0.0<0.1:assumed 0.1/1.2:hidden:1.1:0 1.2<1.2:after-all:2 0.0<0.1:joined 1.1<0.1:lemma:3:4 1.1/0.2:hidden:0.1:5 0.2<0.2:after-all:6 => refuted
    an assumption holds by a shorter order: 0.0<0.2:assumed 0.1<1.1:assumed 0.1/1.2:hidden:1.1:1 1.2<1.2:after-all:2 0.1<0.2:joined 1.1<0.1:lemma:3:4 1.1/0.2:hidden:0.1:5 0.2<0.2:after-all:6 => refuted
    a lemma in a later block: 0.0!1.2:assumed 0.1<1.1:assumed 0.1/1.2:hidden:1.1:1 1.2<1.2:after-all:2 0.1~1.2:assumed 1.1<0.1:lemma:3:4 1.1/0.2:hidden:0.1:5 0.2<0.2:after-all:6 0.1!1.2:lemma:7 0.0~1.2:source:8 1.1<0.0:after-source:9 1.1/0.2:hidden:0.0:10 0.2<0.2:after-all:11 => refuted
    a block that isn't closed: 0.1<1.1:assumed 0.1/1.2:hidden:1.1:0 1.2<1.2:after-all:1 => open
    a contradiction that is assumed: 0.0<0.0:assumed => open
    a lemma of such a one: 0.0<0.0:assumed 0.0<0.0:lemma:0 => open
    a hint from a closed block: 0.1<1.1:assumed 0.1/1.2:hidden:1.1:0 1.2<1.2:after-all:1 1.2<1.2:after-all:1 => open
    one assumption too few: 0.0<0.1:assumed 0.1<1.1:assumed 0.1/1.2:hidden:1.1:1 1.2<1.2:after-all:2 1.1<0.1:lemma:3 1.1/0.2:hidden:0.1:4 0.2<0.2:after-all:5 => open
    an assumption holds by a longer order: 0.0<0.1:assumed 0.1<1.1:assumed 0.1/1.2:hidden:1.1:1 1.2<1.2:after-all:2 0.1<0.2:joined 1.1<0.1:lemma:3:4 1.1/0.2:hidden:0.1:5 0.2<0.2:after-all:6 => open
    an assumption in the midst: 0.1<1.1:assumed 0.1/1.2:hidden:1.1:0 0.0<0.1:assumed 1.2<1.2:after-all:1 1.1<0.1:lemma:3 1.1/0.2:hidden:0.1:4 0.2<0.2:after-all:5 => open
    a lemma of a line that ends nothing: 0.1<1.1:assumed 0.1/1.2:hidden:1.1:0 1.2<1.2:after-all:1 1.1<0.1:lemma:1 1.1/0.2:hidden:0.1:3 0.2<0.2:after-all:4 => open
    a lemma of a line that isn't there: 0.1<1.1:assumed 0.1/1.2:hidden:1.1:0 1.2<1.2:after-all:1 1.1<0.1:lemma:3 1.1/0.2:hidden:0.1:3 0.2<0.2:after-all:4 => open
    a lemma of another order: 0.1<1.1:assumed 0.1/1.2:hidden:1.1:0 1.2<1.2:after-all:1 1.0<0.1:lemma:2 1.1/0.2:hidden:0.1:3 0.2<0.2:after-all:4 => open
";

/// What isn't seen, supposed and concluded.
const UNSEEN_LISTS: &str = "
    0Wx1 0Ry0 1Wy1 1Rx0: -~0.1:assumed 0.1<1.0:before-all 0.0<1.1:joined:1 1.1<1.1:after-all:2 -!0.1:lemma:3 0.1<0.1:after-all:4 => refuted
    0Wx1 0Wy1 1Ry1 1Rx0: 0.1!1.0:assumed 1.0<1.0:after-all:0 0.1~1.0:lemma:1 0.0<1.1:joined:2 1.1<1.1:after-all:3 => refuted
    0Ro1 1Ro2: -!0.0:assumed 0.0<0.0:after-all:0 -~0.0:lemma:1 1.0<1.0:after-all:2 => refuted
    0Wx1 0Wy1 1Ry1 1Rx1: 0.1!1.0:source 1.0<1.0:after-all:0 => open
    0Wx1 0Wy1 1Ry1 1Rx1: 0.0!1.0:assumed 1.0<1.0:after-all:0 0.0~1.0:lemma:1 => open
    0Rx0: -!0.0:source 0.0<0.0:after-all:0 => open
";

/// Traces with a derivation of at most eight lines, and such with none.
const FOUND: &str = "
    store buffering: 0Wx1 0Ry0 1Wy1 1Rx0 => found
    a read of what nobody writes: 0Rx7 => found
    message passing out of order: 0Wx1 0Wy1 1Ry1 1Rx0 => found
    two swaps of the first contents: 0Ux0>1 1Ux0>2 => found
    a write that is hidden: 0Wx1 0Wx2 0Wy1 1Ry1 1Rx1 => found
    two values of an open cell: 0Ro1 1Ro2 => found
    two sources after one write: 0Wy1 1Ry1 1Wx1 2Ry1 2Wx1 3Rx1 3Ry0 => found
    two sources before one write: 0Wx1 0Wy1 1Wx1 1Wz1 2Ry1 2Rz1 2Wx2 2Wy2 3Ry2 3Rx1 => found
    either of two writes is the last: 0Wx2 0Wx2 0Rx1 1Wx1 1Wx1 1Rx2 => found
    message passing: 0Wx1 0Wy1 1Ry1 1Rx1 => none
    nothing: => none
";

fn number(rt: &impl Abort, text: &str) -> u32 {
    text.parse::<u32>().expect(rt, "a number")
}

/// The place that `process.at` says.
fn place_of(rt: &impl Abort, text: &str) -> Place {
    let (process, at) = text.split_once('.').expect(rt, "a process and a place");
    Place {
        process: process.parse::<u8>().expect(rt, "a process"),
        at: number(rt, at),
    }
}

fn fact_of(rt: &impl Abort, text: &str) -> Fact {
    if let Some((from, to)) = text.split_once('<') {
        return Fact::Before {
            from: place_of(rt, from),
            to: place_of(rt, to),
        };
    }
    if let Some((write, read)) = text.split_once('/') {
        return Fact::Hidden {
            write: place_of(rt, write),
            read: place_of(rt, read),
        };
    }
    if let Some((write, read)) = text.split_once('!') {
        return unseen(rt, write, place_of(rt, read));
    }
    let (write, read) = text.split_once('~').expect(rt, "a fact");
    let read = place_of(rt, read);
    match write {
        "-" => Fact::SeesFirst { read },
        _ => Fact::Sees {
            write: place_of(rt, write),
            read,
        },
    }
}

fn unseen(rt: &impl Abort, write: &str, read: Place) -> Fact {
    match write {
        "-" => Fact::UnseenFirst { read },
        _ => Fact::Unseen {
            write: place_of(rt, write),
            read,
        },
    }
}

fn rule_of(rt: &impl Abort, name: &str) -> Rule {
    match name {
        "joined" => Rule::Joined,
        "source" => Rule::Source,
        "after-all" => Rule::AfterAll,
        "before-all" => Rule::BeforeAll,
        "after-source" => Rule::AfterSource,
        "assumed" => Rule::Assumed,
        _ => Rule::Hidden {
            by: place_of(rt, name),
        },
    }
}

/// The rule of a line's words behind its fact, where a place stands for what hides, and the hints.
fn rule_in<'a>(rt: &impl Abort, words: &'a str) -> (Rule, &'a str) {
    if let Some(numbers) = words.strip_prefix("lemma:") {
        let (end, hints) = numbers.split_once(':').unwrap_or((numbers, ""));
        let end = number(rt, end);
        return (Rule::Lemma { end }, hints);
    }
    let words = words.strip_prefix("hidden:").unwrap_or(words);
    match words.split_once(':') {
        Some((name, hints)) => (rule_of(rt, name), hints),
        None => (rule_of(rt, words), ""),
    }
}

/// Whether a line that says this leaves its block open.
fn goes_on(fact: Fact) -> bool {
    match fact {
        Fact::Before { from, to } => from.process != to.process || from.at < to.at,
        _ => true,
    }
}

/// The block of the next line, as a reader of the words finds it.
fn block_behind(lines: &[Line], rule: Rule) -> Option<u32> {
    let open = lines.last().filter(|line| goes_on(line.fact));
    match open.and_then(|line| line.block) {
        None if rule == Rule::Assumed => u32::try_from(lines.len()).ok(),
        block => block,
    }
}

fn add_line(rt: &impl Abort, derivation: &mut Derivation, text: &str) {
    let (fact, words) = text.split_once(':').expect(rt, "a fact and a rule");
    let (rule, hints) = rule_in(rt, words);
    let first = derivation.hints.len();
    for hint in hints.split(':').filter(|hint| !hint.is_empty()) {
        derivation.hints.push(number(rt, hint)).expect(rt, "memory");
    }
    let count = derivation.hints.len().saturating_sub(first);
    let block = block_behind(&derivation.lines, rule);
    derivation
        .lines
        .push(Line {
            fact: fact_of(rt, fact),
            rule,
            first: u32::try_from(first).expect(rt, "a number"),
            count: u32::try_from(count).expect(rt, "a number"),
            block,
        })
        .expect(rt, "memory");
}

fn derivation_of(rt: &impl Abort, alloc: Global, text: &str) -> Derivation {
    let mut derivation = Derivation {
        lines: Vec::new(alloc),
        hints: Vec::new(alloc),
    };
    for word in text.split_whitespace() {
        add_line(rt, &mut derivation, word);
    }
    derivation
}

fn judge(rt: &impl Abort, alloc: Global, row: &str) {
    let (trace, list, verdict) = parts_of(rt, row);
    let sequences = sequences_in(rt, alloc, 4, trace);
    let lengths = lengths_in(rt, alloc, 4, trace);
    let derivation = derivation_of(rt, alloc, list);
    let is_refuted = orders_refute(&INITIALS, &sequences, &lengths, &derivation);
    assert!(rt; is_refuted == (verdict == "refuted"), "{row}");
}

#[test]
fn derivations_are_judged(rt: HostRuntime) {
    for row in LISTS.trim().lines() {
        judge(&rt, rt.alloc(), row);
    }
}

#[test]
fn cases_are_judged(rt: HostRuntime) {
    let alloc = rt.alloc();
    judge(&rt, alloc, &crossed_by(&rt, alloc, CASES, "refuted"));
    for row in CASE_LISTS.trim().lines() {
        let (_, list, verdict) = parts_of(&rt, row);
        judge(&rt, alloc, &crossed_by(&rt, alloc, list, verdict));
    }
    for row in UNSEEN_LISTS.trim().lines() {
        judge(&rt, alloc, row);
    }
}

/// A row that judges this list of lines for the crossed trace.
fn crossed_by(rt: &impl Abort, alloc: Global, list: &str, verdict: &str) -> String {
    format!(in alloc; "{CROSSED}: {list} => {verdict}").expect(rt, "memory")
}

/// Whether the two cases refute the crossed trace where one line is said to be of this block.
fn is_refuted_with(rt: &impl Abort, alloc: Global, number: usize, block: Option<u32>) -> bool {
    let sequences = sequences_in(rt, alloc, 4, CROSSED);
    let mut derivation = derivation_of(rt, alloc, CASES);
    let line = derivation.lines.get_mut(number).expect(rt, "a line");
    line.block = block;
    orders_refute(&INITIALS, &sequences, &sequences.lengths(), &derivation)
}

#[test]
fn blocks_are_data(rt: HostRuntime) {
    let rows = [
        (0, Some(0), true),
        (0, None, false),
        (0, Some(1), false),
        (1, None, false),
        (1, Some(1), false),
        (2, None, false),
        (3, None, true),
        (3, Some(0), false),
        (3, Some(3), false),
        (5, Some(u32::MAX), false),
    ];
    for (number, block, wanted) in rows {
        let is_refuted = is_refuted_with(&rt, rt.alloc(), number, block);
        assert!(rt; is_refuted == wanted, "{number} {block:?}");
    }
}

/// Whether store buffering is refuted where the hints of the last line are said to be these, of a list with so many more, each
/// of which is 1.
fn is_refuted_by(rt: &impl Abort, alloc: Global, first: u32, count: u32, more: usize) -> bool {
    let sequences = sequences_in(rt, alloc, 4, "0Wx1 0Ry0 1Wy1 1Rx0");
    let mut derivation = derivation_of(rt, alloc, "0.1<1.0:before-all 0.0<1.1:joined:0");
    let read = place_of(rt, "1.1");
    derivation
        .lines
        .push(Line {
            fact: Fact::Before {
                from: read,
                to: read,
            },
            rule: Rule::AfterAll,
            first,
            count,
            block: None,
        })
        .expect(rt, "memory");
    for _ in 0..more {
        derivation.hints.push(1).expect(rt, "memory");
    }
    orders_refute(&INITIALS, &sequences, &sequences.lengths(), &derivation)
}

#[test]
fn hints_are_data(rt: HostRuntime) {
    let rows = [
        (1, 1, 1, true),
        (0, 2, 1, true),
        (1, 255, 255, true),
        (1, 256, 256, false),
        (1, 0, 1, false),
        (1, 2, 1, false),
        (2, 1, 1, false),
        (u32::MAX, 0, 1, false),
        (u32::MAX, u32::MAX, 1, false),
        (1, u32::MAX, 1, false),
    ];
    for (first, count, more, wanted) in rows {
        let is_refuted = is_refuted_by(&rt, rt.alloc(), first, count, more);
        assert!(rt; is_refuted == wanted, "{first} {count}");
    }
}

#[test]
fn what_lies_beyond_refutes_nothing(rt: HostRuntime) {
    let alloc = rt.alloc();
    let sequences = sequences_in(&rt, alloc, 4, "0Wx1 0Ry0 1Wy1 1Rx0");
    let beyond = derivation_of(&rt, alloc, "0.1<0.1:after-all");
    assert!(rt; !orders_refute(&INITIALS, &sequences, &Lengths::new(alloc, &[]), &beyond));
    assert!(rt; !orders_refute(&[], &sequences, &sequences.lengths(), &beyond));
}

/// How many lines the derivation has that was found for a trace of four processes, 0 where none was found. Each is judged.
fn lines_found(
    rt: &impl Abort,
    alloc: Global,
    initials: &[Option<u64>],
    sequences: &Sequences,
) -> usize {
    let lengths = sequences.lengths();
    let Some(derivation) = find_cycle(alloc, initials, sequences, &lengths) else {
        return 0;
    };
    assert!(rt; orders_refute(initials, sequences, &lengths, &derivation));
    derivation.lines.len()
}

#[test]
fn short_derivations_are_found(rt: HostRuntime) {
    for row in FOUND.trim().lines() {
        let (_, trace, wanted) = parts_of(&rt, row);
        let sequences = sequences_in(&rt, rt.alloc(), 4, trace);
        let lines = lines_found(&rt, rt.alloc(), &INITIALS, &sequences);
        assert!(rt; lines <= 8 && (lines > 0) == (wanted == "found"), "{row}");
    }
}

#[test]
fn consistent_rows_have_none(rt: HostRuntime) {
    for row in ROWS.trim().lines() {
        let (_, trace, wanted) = parts_of(&rt, row);
        let sequences = sequences_in(&rt, rt.alloc(), 4, trace);
        let lines = lines_found(&rt, rt.alloc(), &INITIALS, &sequences);
        assert!(rt; lines == 0 || wanted.contains(", inconsistent"), "{row}");
    }
}

#[test]
fn cells_that_are_not_there_have_none(rt: HostRuntime) {
    let sequences = sequences_of(&rt, rt.alloc(), 4, &[(0, read(9, 1))]);
    assert!(rt; lines_found(&rt, rt.alloc(), &[], &sequences) == 0);
}
