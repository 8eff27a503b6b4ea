//! The classical litmus tests in each form in which a set holds situations: the answers are those of a plain list, and
//! the same in all forms.

use crate::forms::{Form, is_right_at_the_end, narrowest};
use crate::judged::{is_legal_schedule, is_refuted};
use crate::plain_list::{PlainList, agree};
use crate::subject::{Subject, cells};
use crate::traces::{counts_in, operation, parts_of, read, write};
use scm_frontier::Situation;
use scm_reach::Settled;
use scm_schedules::{refutation, schedule};
use scm_sequences::{Lengths, MOST_PROCESSES};
use std::alloc::Global;
use std::ops::Range;
use std::process::Abort;

/// Traces with a mark, and what a search that only knows the definitions comes to at the mark and at the end: the verdict, and
/// how many situations can be reached.
pub(crate) const ROWS: &str = "
    nothing: / => consistent 1, consistent 1
    message passing: 0Wx1 0Wy1 1Ry1 / 1Rx1 => consistent 4, consistent 5
    message passing out of order: 0Wx1 0Wy1 1Ry1 / 1Rx0 => consistent 4, inconsistent 4
    message passing seen early: 1Ry1 1Rx1 / 0Wx1 0Wy1 => inconsistent 1, consistent 5
    a chain of messages: 0Wx1 0Wy1 1Ry1 1Wz1 / 2Rz1 2Rx1 => consistent 5, consistent 7
    a chain of messages out of order: 0Wx1 0Wy1 1Ry1 1Wz1 2Rz1 / 2Rx0 => consistent 6, inconsistent 6
    store buffering: 0Wx1 0Ry0 / 1Wy1 1Rx0 => consistent 3, inconsistent 8
    store buffering with one store seen: 0Wx1 0Ry0 / 1Wy1 1Rx1 => consistent 3, consistent 8
    store buffering of three: 0Wx1 0Ry0 1Wy1 1Rz0 / 2Wz1 2Rx0 => consistent 9, inconsistent 26
    coherence of two reads: 0Wx1 1Rx0 / 1Rx1 => consistent 4, consistent 5
    coherence of two reads out of order: 0Wx1 1Rx1 / 1Rx0 => consistent 3, inconsistent 3
    coherence of reads by two processes: 0Wx1 1Wx2 2Rx1 2Rx2 / 3Rx2 3Rx1 => consistent 9, inconsistent 17
    a store is seen by its own process: 0Wx1 / 0Rx0 => consistent 2, inconsistent 2
    a store is overwritten and seen again: 0Wx1 1Wx2 0Rx2 / 0Rx1 => consistent 6, inconsistent 6
    independent reads of independent writes: 0Wx1 1Wy1 2Rx1 2Ry0 / 3Ry1 3Rx0 => consistent 8, inconsistent 15
    independent reads that agree: 0Wx1 1Wy1 2Rx1 2Ry0 / 3Ry1 3Rx1 => consistent 8, consistent 15
    load buffering: 0Rx1 0Wy1 / 1Ry1 1Wx1 => inconsistent 1, inconsistent 1
    load buffering with one store seen: 0Rx0 0Wy1 / 1Ry1 1Wx1 => consistent 3, consistent 5
    write to read causality: 0Wx1 1Rx1 1Wy1 / 2Ry1 2Rx1 => consistent 4, consistent 6
    write to read causality broken: 0Wx1 1Rx1 1Wy1 2Ry1 / 2Rx0 => consistent 5, inconsistent 5
    read to write causality: 0Wx1 1Rx1 1Ry0 / 2Wy1 2Rx1 => consistent 4, consistent 11
    read to write causality broken: 0Wx1 1Rx1 1Ry0 / 2Wy1 2Rx0 => consistent 4, inconsistent 11
    a store after a message: 0Wx2 0Wy1 1Ry1 1Wx1 / 2Rx2 2Rx1 => consistent 5, consistent 10
    a store after a message comes first: 0Wx2 0Wy1 1Ry1 1Wx1 / 2Rx1 2Rx2 => consistent 5, inconsistent 6
    stores to one cell and a read of the other: 0Wx1 0Wy1 1Wy2 1Rx0 / 2Ry2 2Ry1 => consistent 10, consistent 19
    stores to one cell and a read too late: 0Wx1 0Wy1 1Wy2 1Rx0 / 2Ry1 2Ry2 => consistent 10, inconsistent 15
    two stores by each of two: 0Wx1 0Wy2 1Wy1 1Wx2 2Rx1 2Ry0 / 3Ry2 3Ry1 3Rx1 => consistent 31, consistent 60
    two stores by each of two in opposite orders: 0Wx1 0Wy2 1Wy1 1Wx2 2Rx2 2Rx1 / 3Ry2 3Ry1 => consistent 21, inconsistent 34
    Dekker with swaps: 0Ux0>1 0Ry0 / 1Uy0>1 1Rx0 => consistent 3, inconsistent 8
    Dekker with swaps and one in: 0Ux0>1 0Ry0 / 1Uy0>1 1Rx1 => consistent 3, consistent 8
    Dekker with swaps that only read: 0Wx1 0Uy0>0 / 1Wy1 1Ux0>0 => consistent 3, inconsistent 8
    two swaps find a lock free: 0Ux0>1 1Ux0>1 / 0Wx0 => inconsistent 3, consistent 5
    two swaps find a held lock free: 0Ux0>1 / 1Ux0>1 => consistent 2, inconsistent 3
    a lock guards a counter: 0Ux0>1 0Ry0 0Wy1 0Ux1>0 / 1Ux0>1 1Ry1 1Wy2 1Ux1>0 => consistent 5, consistent 10
    a lock loses an update: 0Ux0>1 0Ry0 0Wy1 0Ux1>0 / 1Ux0>1 1Ry0 1Wy1 1Ux1>0 => consistent 5, inconsistent 11
    a counter: 0Ux0>1 / 1Ux1>2 => consistent 2, consistent 3
    a counter loses an update: 0Ux0>1 / 1Ux0>1 => consistent 2, inconsistent 3
    a counter of four: 0Ux0>1 1Ux1>2 2Ux2>3 3Ux3>4 / 0Ux4>5 1Ux5>6 2Ux6>7 3Ux7>8 => consistent 5, consistent 9
    a counter of four skips a number: 0Ux0>1 1Ux1>2 2Ux2>3 3Ux3>4 / 0Ux4>5 1Ux5>6 2Ux7>8 3Ux8>9 => consistent 5, inconsistent 7
    a counter by reads and writes: 0Rx0 0Wy1 0Wx1 0Wy2 / 1Ry1 1Rx0 1Ry2 1Wx1 => consistent 5, consistent 13
    a counter that wraps: 0Ux0>-1 1Ux-1>0 / 0Ux0>-1 1Ux-1>1 => consistent 3, consistent 5
    an open cell is read first: 0Ro7 / 1Ro7 => consistent 2, consistent 4
    an open cell is read as two values: 0Ro1 / 1Ro2 => consistent 2, inconsistent 3
    an open cell is written or read first: 0Wo4 / 1Ro3 => consistent 2, consistent 4
    an open cell is read late: 0Wo4 / 0Ro3 => consistent 2, inconsistent 2
    an open cell is swapped by both: 0Uo-1>5 / 1Uo5>-1 => consistent 2, consistent 5
    an open cell is swapped from two values: 0Uo1>3 / 1Uo2>4 => consistent 2, inconsistent 3
    an open flag and its data: 0Wx42 0Wo1 1Ro1 / 1Rx0 => consistent 6, consistent 9
    greatest values: 0Wx-1 0Wy-2 / 1Ry-2 1Rx-1 => consistent 3, consistent 5
    greatest values mistaken for each other: 0Wx-1 0Wy-2 1Ry-2 / 1Rx-2 => consistent 4, inconsistent 4
    zero is written again: 0Wx-1 0Wx0 / 1Rx0 1Rx-1 1Rx0 => consistent 3, consistent 9
    values that differ in one half: 0Wx4294967296 0Wx1 / 1Rx1 1Rx4294967296 => consistent 3, inconsistent 4
    a read of what nobody writes: / 0Rx7 => consistent 1, inconsistent 1
    a read of what nobody writes beside writes: 0Wx1 1Wy2 0Wx3 / 2Rx2 => consistent 6, inconsistent 6
    a load before its store: 1Rx1 / 0Wx1 => inconsistent 1, consistent 3
    stores of three and a read of none: 0Wx1 1Wy1 2Wz1 0Wx2 1Wy2 2Wz2 / 0Ry3 => consistent 27, inconsistent 27
    a read of what nobody writes, then a write of it: 0Wx1 1Rx7 / 1Wx7 => inconsistent 2, inconsistent 2
    a counter that wraps skips a number: 0Ux0>-1 1Ux-1>0 / 0Ux1>2 => consistent 3, inconsistent 3
    an open cell is read twice and swapped: 0Ro3 1Ro3 / 1Uo3>-1 0Ro-1 => consistent 4, consistent 7
    a swap, then a write that is seen: 0Ro-1 0Wx5 1Ux0>6 1Wo-1 / 0Wy-1 1Ry-1 1Rx5 0Rx77 => consistent 9, inconsistent 14
";

/// The verdict on a trace, and how many situations can be reached in it.
#[derive(Clone, Copy)]
struct Wanted {
    is_consistent: bool,
    situations: usize,
}

/// A row, with as many processes and cells as it names.
#[derive(Clone, Copy)]
struct Row {
    name: &'static str,
    before: &'static str,
    behind: &'static str,
    at_mark: Wanted,
    at_end: Wanted,
    procs: usize,
    cells: u8,
}

fn row_of(rt: &impl Abort, line: &'static str) -> Row {
    let (name, operations, wanted) = parts_of(rt, line);
    let (before, behind) = operations.split_once('/').expect(rt, "a mark");
    let (at_mark, at_end) = wanted.split_once(", ").expect(rt, "two verdicts");
    let (procs, cells) = size_of(rt, before, behind);
    Row {
        name,
        before,
        behind,
        at_mark: wanted_of(rt, at_mark),
        at_end: wanted_of(rt, at_end),
        procs,
        cells,
    }
}

fn wanted_of(rt: &impl Abort, text: &str) -> Wanted {
    let (verdict, situations) = text.split_once(' ').expect(rt, "a verdict and a number");
    Wanted {
        is_consistent: verdict == "consistent",
        situations: situations.parse::<usize>().expect(rt, "a number"),
    }
}

/// How many processes and cells these name, at least one.
fn size_of(rt: &impl Abort, before: &str, behind: &str) -> (usize, u8) {
    let (mut procs, mut cells) = (1, 1);
    for text in [before, behind] {
        for word in text.split_whitespace() {
            let (p, op) = operation(rt, word);
            procs = procs.max(p.saturating_add(1));
            cells = cells.max(op.cell().saturating_add(1));
        }
    }
    (procs, u8::try_from(cells).expect(rt, "few cells"))
}

/// A form, and the ballast with which a small trace fills it: so many processes, each of which writes so many values to
/// two cells that no other process writes.
#[derive(Clone, Copy)]
struct Shape {
    form: Form,
    procs: usize,
    values: u64,
}

/// A form, with how many processes and values. The first is that of the bare rows. No word has room for the last
/// one. A further form is one more entry.
const SHAPES: [(Form, usize, u64); 3] = [
    (Form::Short, 0, 0),
    (Form::Long, 14, 1),
    (Form::Wide, 28, 1),
];

fn shape_of((form, procs, values): (Form, usize, u64)) -> Shape {
    Shape {
        form,
        procs,
        values,
    }
}

/// A part of a course.
#[derive(Clone, Copy)]
enum Act {
    ReportBefore,
    ReportBehind,
    /// The form is the wanted one.
    LookAtForm,
    AskAtMark,
    AskAtEnd,
    /// About the whole trace, which the ballast makes inconsistent.
    AskAboutAll,
    /// To the mark, with the ballast.
    GoBack,
    /// To the mark, without it.
    GoBackBare,
}

use Act::*;

/// In which order a row is reported and asked about.
const AT_ONCE: &[Act] = &[
    ReportBefore,
    ReportBehind,
    LookAtForm,
    AskAtEnd,
    AskAboutAll,
];

const AT_MARK: &[Act] = &[ReportBefore, ReportBehind, AskAtMark, AskAtEnd, AskAtMark];

const AND_BACK: &[Act] = &[
    ReportBefore,
    AskAtMark,
    ReportBehind,
    AskAtEnd,
    GoBack,
    LookAtForm,
    AskAtMark,
    ReportBehind,
    AskAtEnd,
    GoBackBare,
    AskAtMark,
    ReportBehind,
    AskAtEnd,
];

/// A row with the ballast of a form, and what the questions said so far: of each the schedule, if one was found, and the counts
/// and contents of the row in the situations that are held within its lengths.
#[derive(Drop)]
struct Trial {
    row: Row,
    shape: Shape,
    subject: Subject,
    said: Vec<Option<u64>>,
    alloc: Global,
}

impl Trial {
    /// The ballast alone.
    fn new(rt: &impl Abort, alloc: Global, row: &Row, shape: Shape) -> Trial {
        assert!(rt; 0 < row.cells && row.cells <= 4 && shape.procs <= 28);
        assert!(rt; 0 < row.procs && row.procs <= 4);
        let cells = cells(rt, alloc, row.cells + 2 * shape.procs as u8);
        let mut subject = Subject::new(rt, alloc, &cells, row.procs + shape.procs);
        load(rt, &mut subject, row, &shape);
        Trial {
            row: *row,
            shape,
            subject,
            said: Vec::new(alloc),
            alloc,
        }
    }

    fn act(&mut self, rt: &impl Abort, it: Act) {
        match it {
            ReportBefore => self.subject.report_all(rt, self.row.before),
            ReportBehind => self.subject.report_all(rt, self.row.behind),
            LookAtForm => self.look_at_form(rt),
            AskAtMark => self.ask(rt, false),
            AskAtEnd => self.ask(rt, true),
            AskAboutAll => self.ask_about_all(rt),
            GoBack => self.go_back(rt, true),
            GoBackBare => self.go_back(rt, false),
        }
    }

    /// The row's lengths at its mark or at its end, with all or nothing of the ballast.
    fn lengths(&self, rt: &impl Abort, is_end: bool, with_ballast: bool) -> Lengths {
        let mut counts = counts_in(rt, self.row.before);
        let behind = counts_in(rt, self.row.behind);
        let whole = self.subject.sequences().lengths();
        assert!(rt; whole.procs() <= MOST_PROCESSES);
        for p in 0..whole.procs() {
            if with_ballast && self.row.procs <= p {
                counts[p] = whole.get(p);
            }
            if is_end {
                counts[p] = counts[p].saturating_add(behind[p]);
            }
        }
        Lengths::new(self.alloc, &counts[..whole.procs()])
    }

    fn go_back(&mut self, rt: &impl Abort, with_ballast: bool) {
        let lengths = self.lengths(rt, false, with_ballast);
        self.subject.go_back(rt, &lengths);
    }

    /// Asks about the row at its mark or at its end, and notes the answer.
    fn ask(&mut self, rt: &impl Abort, is_end: bool) {
        let lengths = self.lengths(rt, is_end, false);
        let settled = self.subject.ask(rt, &lengths);
        self.compare(rt, &lengths, settled, is_end);
        if let Settled::Whole(id) = settled {
            self.note_schedule(rt, &lengths, id);
        }
        self.note_held(rt, &lengths);
    }

    /// Whether the set is what the plain list says, and that what is wanted.
    fn compare(&self, rt: &impl Abort, lengths: &Lengths, settled: Settled, is_end: bool) {
        let wanted = if is_end {
            self.row.at_end
        } else {
            self.row.at_mark
        };
        let (reach, sequences) = (self.subject.reach(), self.subject.sequences());
        let list = PlainList::of(rt, self.alloc, reach.initials(), sequences, lengths);
        self.expect(
            rt,
            list.has_whole(lengths) == wanted.is_consistent,
            "the verdict",
        );
        self.expect(rt, list.len() == wanted.situations, "the number");
        let is_right = agree(rt, &list, sequences, lengths, settled, reach);
        self.expect(rt, is_right, "the set");
        if !wanted.is_consistent {
            self.compare_refutation(rt, lengths, &list.sorted(rt, self.alloc));
        }
    }

    /// The situations that are held are the listed ones, and refute the row.
    fn compare_refutation(&self, rt: &impl Abort, lengths: &Lengths, listed: &[Situation]) {
        let (reach, sequences) = (self.subject.reach(), self.subject.sequences());
        let held = refutation(self.alloc, reach, lengths).expect(rt, "memory");
        self.expect(rt, held.as_slice() == listed, "the refutation");
        let initials = reach.initials();
        let is_refuted = is_refuted(rt, self.alloc, initials, sequences, lengths, &held);
        self.expect(rt, is_refuted, "the judge of it");
    }

    /// Notes the schedule that leads to the situation of this number, which is legal.
    fn note_schedule(&mut self, rt: &impl Abort, lengths: &Lengths, id: usize) {
        let places = self.schedule_to(rt, lengths, id);
        for place in &places {
            self.said.push(Some(u64::from(*place))).expect(rt, "memory");
        }
    }

    fn schedule_to(&self, rt: &impl Abort, lengths: &Lengths, id: usize) -> Vec<u8> {
        let (reach, sequences) = (self.subject.reach(), self.subject.sequences());
        assert!(rt; id < reach.held());
        let places = schedule(self.alloc, reach, id).expect(rt, "memory");
        assert!(rt; is_legal_schedule(rt, reach.initials(), sequences, lengths, &places));
        places
    }

    fn note_held(&mut self, rt: &impl Abort, lengths: &Lengths) {
        let held = refutation(self.alloc, self.subject.reach(), lengths).expect(rt, "memory");
        for situation in &held {
            note_counts(rt, &mut self.said, self.row.procs, situation);
            note_contents(rt, &mut self.said, usize::from(self.row.cells), situation);
        }
    }

    /// Where there is ballast, which is no situation more.
    fn ask_about_all(&mut self, rt: &impl Abort) {
        if self.shape.procs > 0 {
            let is_right = is_right_at_the_end(rt, self.alloc, &mut self.subject);
            let held = self.subject.reach().held();
            self.expect(rt, is_right && held == self.row.at_end.situations, "all");
        }
    }

    fn look_at_form(&self, rt: &impl Abort) {
        let form = narrowest(rt, self.alloc, &self.subject);
        self.expect(rt, form == self.shape.form, "the form");
    }

    /// Fails, and names the row and the form, unless this holds.
    fn expect(&self, rt: &impl Abort, holds: bool, what: &str) {
        let (name, form) = (self.row.name, self.shape.form);
        assert!(rt; holds, "{what}, of {name} in the form {form:?}");
    }
}

/// Reports the ballast.
fn load(rt: &impl Abort, subject: &mut Subject, row: &Row, shape: &Shape) {
    let mut cell = row.cells;
    for p in row.procs..subject.sequences().procs() {
        let next = cell.checked_add(2).expect(rt, "a cell");
        add_writes(rt, subject, p, cell..next, shape.values);
        cell = next;
    }
}

/// A process reads what nobody writes, and then writes these many values to each of these cells: no situation more, but a
/// longer word.
fn add_writes(rt: &impl Abort, subject: &mut Subject, p: usize, cells: Range<u8>, values: u64) {
    for c in cells {
        subject.report(rt, p, read(c, 99));
        for value in 1..=values {
            subject.report(rt, p, write(c, value));
        }
    }
}

fn note_counts(rt: &impl Abort, said: &mut Vec<Option<u64>>, procs: usize, situation: &Situation) {
    assert!(rt; procs <= situation.procs());
    for p in 0..procs {
        let count = u64::from(situation.count(p));
        said.push(Some(count)).expect(rt, "memory");
    }
}

fn note_contents(
    rt: &impl Abort,
    said: &mut Vec<Option<u64>>,
    cells: usize,
    situation: &Situation,
) {
    assert!(rt; cells <= situation.cells());
    for c in 0..cells {
        said.push(situation.value(c)).expect(rt, "memory");
    }
}

/// What the questions of this course say of a row in a form.
fn said(
    rt: &impl Abort,
    alloc: Global,
    row: &Row,
    shape: Shape,
    course: &[Act],
) -> Vec<Option<u64>> {
    let mut trial = Trial::new(rt, alloc, row, shape);
    for act in course {
        trial.act(rt, *act);
    }
    trial.said
}

/// Each row is answered the same in these forms as in the first one.
fn compare_forms(rt: &impl Abort, alloc: Global, course: &[Act], shapes: &[(Form, usize, u64)]) {
    for line in ROWS.trim().lines() {
        let row = row_of(rt, line);
        let first = said(rt, alloc, &row, shape_of(SHAPES[0]), course);
        for shape in shapes {
            let others = said(rt, alloc, &row, shape_of(*shape), course);
            assert!(rt; first == others, "{line}");
        }
    }
}

#[test]
fn rows_are_settled_alike_in_all_forms(rt: HostRuntime) {
    compare_forms(&rt, rt.alloc(), AT_ONCE, &SHAPES[1..]);
}

#[test]
fn marks_are_settled_alike_in_all_forms(rt: HostRuntime) {
    compare_forms(&rt, rt.alloc(), AT_MARK, &SHAPES[1..]);
}

#[test]
fn going_back_is_alike_in_words(rt: HostRuntime) {
    compare_forms(&rt, rt.alloc(), AND_BACK, &SHAPES[1..2]);
}

#[test]
fn going_back_is_alike_in_full(rt: HostRuntime) {
    compare_forms(&rt, rt.alloc(), AND_BACK, &SHAPES[2..]);
}
