//! The text of refutations: all situations that can be reached, or the lines of a short one.
ghost use Rattle.std.specs.Prelude.{◌≡◌, map, decimal, flat_map};
ghost use Rattle.scm_book.specs.Machine.{because, cycle};
ghost use Rattle.scm_sessions.specs.Script.{inner_of, has_failed, reads_of, Sends, joined, comma_after, content_text, situation_text, place_text, pair_text, fact_text, rule_text, hint_text, line_text, reply_text};

use crate::port::Port;
use scm_frontier::Situation;
use scm_orders::{Derivation, Fact, Line, Place, Rule};
use std::io::Write;

impl<W: Write> Port<W> {
    /// Puts a comma where an item of a list stands before the one that comes next.
    fn put_comma_after(&mut self, earlier: usize)
        ensures bytes { Sends (W.contents (inner_of self.old)) (has_failed self.old)
            (W.contents (inner_of self.new)) (has_failed self.new) (comma_after earlier) }
        ensures reads { reads_of self.new ≡ reads_of self.old }
    {
        if earlier > 0 {
            self.put(b",");
        }
    }

    /// Puts the counts of a situation.
    fn put_counts(&mut self, situation: &Situation)
        ensures bytes { Sends (W.contents (inner_of self.old)) (has_failed self.old)
            (W.contents (inner_of self.new)) (has_failed self.new) (joined (map decimal situation.now.counts)) }
        ensures reads { reads_of self.new ≡ reads_of self.old }
    {
        for p in 0..situation.procs() {
            self.put_comma_after(p);
            self.put_number(u64::from(situation.count(p)));
        }
    }

    /// Puts what a cell holds, `?` where that is open.
    fn put_content(&mut self, content: Option<u64>)
        ensures bytes { Sends (W.contents (inner_of self.old)) (has_failed self.old)
            (W.contents (inner_of self.new)) (has_failed self.new) (content_text content) }
        ensures reads { reads_of self.new ≡ reads_of self.old }
    {
        match content {
            Some(value) => self.put_number(value),
            None => self.put(b"?"),
        }
    }

    /// Puts the contents of a situation.
    fn put_contents(&mut self, situation: &Situation)
        ensures bytes { Sends (W.contents (inner_of self.old)) (has_failed self.old)
            (W.contents (inner_of self.new)) (has_failed self.new) (joined (map content_text situation.now.contents)) }
        ensures reads { reads_of self.new ≡ reads_of self.old }
    {
        for c in 0..situation.cells() {
            self.put_comma_after(c);
            self.put_content(situation.value(c));
        }
    }

    /// Puts a situation, with a space before it.
    fn put_situation(&mut self, situation: &Situation)
        ensures bytes { Sends (W.contents (inner_of self.old)) (has_failed self.old)
            (W.contents (inner_of self.new)) (has_failed self.new) (situation_text situation.now) }
        ensures reads { reads_of self.new ≡ reads_of self.old }
    {
        self.put(b" ");
        self.put_counts(situation);
        self.put(b"/");
        self.put_contents(situation);
    }

    /// Puts each of these situations.
    fn put_situations(&mut self, situations: &[Situation])
        ensures bytes { Sends (W.contents (inner_of self.old)) (has_failed self.old)
            (W.contents (inner_of self.new)) (has_failed self.new) (flat_map situation_text situations.now) }
        ensures reads { reads_of self.new ≡ reads_of self.old }
    {
        for situation in situations {
            self.put_situation(situation);
        }
    }

    /// Puts the reply that refutes a trace.
    pub(crate) fn put_refutation(&mut self, situations: &[Situation])
        ensures bytes { Sends (W.contents (inner_of self.old)) (has_failed self.old)
            (W.contents (inner_of self.new)) (has_failed self.new) (reply_text (because situations.now)) }
        ensures reads { reads_of self.new ≡ reads_of self.old }
    {
        self.put(b"because ");
        self.put_number(situations.len() as u64);
        self.put_situations(situations);
    }

    /// Puts where an operation stands.
    fn put_place(&mut self, place: Place)
        ensures bytes { Sends (W.contents (inner_of self.old)) (has_failed self.old)
            (W.contents (inner_of self.new)) (has_failed self.new) (place_text place) }
        ensures reads { reads_of self.new ≡ reads_of self.old }
    {
        self.put_number(u64::from(place.process));
        self.put(b".");
        self.put_number(u64::from(place.at));
    }

    /// Puts two operations, and what is said of them between.
    fn put_pair(&mut self, from: Place, sign: &[u8], to: Place)
        ensures bytes { Sends (W.contents (inner_of self.old)) (has_failed self.old)
            (W.contents (inner_of self.new)) (has_failed self.new) (pair_text from sign.now to) }
        ensures reads { reads_of self.new ≡ reads_of self.old }
    {
        self.put_place(from);
        self.put(sign);
        self.put_place(to);
    }

    /// Puts what a line says.
    fn put_fact(&mut self, fact: Fact)
        ensures bytes { Sends (W.contents (inner_of self.old)) (has_failed self.old)
            (W.contents (inner_of self.new)) (has_failed self.new) (fact_text fact) }
        ensures reads { reads_of self.new ≡ reads_of self.old }
    {
        match fact {
            Fact::Before { from, to } => self.put_pair(from, b"<", to),
            Fact::Sees { write, read } => self.put_pair(write, b"~", read),
            Fact::SeesFirst { read } => {
                self.put(b"-~");
                self.put_place(read);
            }
            Fact::Hidden { write, read } => self.put_pair(write, b"/", read),
            Fact::Unseen { write, read } => self.put_pair(write, b"!", read),
            Fact::UnseenFirst { read } => {
                self.put(b"-!");
                self.put_place(read);
            }
        }
    }

    /// Puts the number of an earlier line, with a colon before it.
    fn put_hint(&mut self, hint: u32)
        ensures bytes { Sends (W.contents (inner_of self.old)) (has_failed self.old)
            (W.contents (inner_of self.new)) (has_failed self.new) (hint_text hint) }
        ensures reads { reads_of self.new ≡ reads_of self.old }
    {
        self.put(b":");
        self.put_number(u64::from(hint));
    }

    /// Puts why it follows.
    fn put_rule(&mut self, rule: Rule)
        ensures bytes { Sends (W.contents (inner_of self.old)) (has_failed self.old)
            (W.contents (inner_of self.new)) (has_failed self.new) (rule_text rule) }
        ensures reads { reads_of self.new ≡ reads_of self.old }
    {
        match rule {
            Rule::Joined => self.put(b"joined"),
            Rule::Hidden { by } => {
                self.put(b"hidden:");
                self.put_place(by);
            }
            Rule::Source => self.put(b"source"),
            Rule::AfterAll => self.put(b"after-all"),
            Rule::BeforeAll => self.put(b"before-all"),
            Rule::AfterSource => self.put(b"after-source"),
            Rule::Assumed => self.put(b"assumed"),
            Rule::Lemma { end } => {
                self.put(b"lemma");
                self.put_hint(end);
            }
        }
    }

    /// Puts each of these hints.
    fn put_hints(&mut self, hints: &[u32])
        ensures bytes { Sends (W.contents (inner_of self.old)) (has_failed self.old)
            (W.contents (inner_of self.new)) (has_failed self.new) (flat_map hint_text hints.now) }
        ensures reads { reads_of self.new ≡ reads_of self.old }
    {
        for hint in hints {
            self.put_hint(*hint);
        }
    }

    /// Puts a line with its hints, which are among these, and a space before it.
    fn put_line(&mut self, line: Line, hints: &[u32])
        ensures bytes { Sends (W.contents (inner_of self.old)) (has_failed self.old)
            (W.contents (inner_of self.new)) (has_failed self.new) (line_text hints.now line) }
        ensures reads { reads_of self.new ≡ reads_of self.old }
    {
        self.put(b" ");
        self.put_fact(line.fact);
        self.put(b":");
        self.put_rule(line.rule);
        self.put_hints(line.hints_in(hints));
    }

    /// Puts each of these lines.
    fn put_lines(&mut self, lines: &[Line], hints: &[u32])
        ensures bytes { Sends (W.contents (inner_of self.old)) (has_failed self.old)
            (W.contents (inner_of self.new)) (has_failed self.new) (flat_map (line_text hints.now) lines.now) }
        ensures reads { reads_of self.new ≡ reads_of self.old }
    {
        for line in lines {
            self.put_line(*line, hints);
        }
    }

    /// Puts the reply that refutes a trace by these lines, with these hints.
    fn put_refuting(&mut self, lines: &[Line], hints: &[u32])
        ensures bytes { Sends (W.contents (inner_of self.old)) (has_failed self.old)
            (W.contents (inner_of self.new)) (has_failed self.new) (reply_text (cycle lines.now hints.now)) }
        ensures reads { reads_of self.new ≡ reads_of self.old }
    {
        self.put(b"cycle ");
        self.put_number(lines.len() as u64);
        self.put_lines(lines, hints);
    }

    /// Puts the reply that refutes a trace shortly.
    pub(crate) fn put_cycle(&mut self, derivation: &Derivation)
        ensures bytes { Sends (W.contents (inner_of self.old)) (has_failed self.old)
            (W.contents (inner_of self.new)) (has_failed self.new) (reply_text (cycle derivation.now.lines.items derivation.now.hints.items)) }
        ensures reads { reads_of self.new ≡ reads_of self.old }
    {
        self.put_refuting(&derivation.lines, &derivation.hints);
    }
}
