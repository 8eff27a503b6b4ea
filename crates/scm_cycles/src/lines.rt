//! The derivation as it is written, line by line.
use indexmap::IndexMap;
use scm_orders::{Derivation, Fact, Line, Rule};
use std::alloc::Global;

/// The most lines of a derivation.
const MOST_LINES: usize = 20_000;

/// The operations that a line is about, the one in the midst first: where there is none, that is the first one again.
type LineKey = (u32, u32, u32);

/// The lines so far, which of them may be needed again, and the first line of the block that is open.
#[derive(Drop)]
pub(crate) struct Lines {
    pub(crate) derivation: Derivation,
    known: IndexMap<LineKey, u32>,
    /// Set where a block begins, `None` again where it ends.
    pub(crate) block: Option<u32>,
}

impl Lines {
    pub(crate) fn new(alloc: Global) -> Lines {
        Lines {
            derivation: Derivation {
                lines: Vec::new(alloc),
                hints: Vec::new(alloc),
            },
            known: IndexMap::new(alloc),
            block: None,
        }
    }

    /// How many lines there are.
    pub(crate) fn len(&self) -> Option<u32> {
        u32::try_from(self.derivation.lines.len()).ok()
    }

    /// Adds a line, and gives its number.
    pub(crate) fn add(&mut self, fact: Fact, rule: Rule, hints: &[u32]) -> Option<u32> {
        if self.derivation.lines.len() >= MOST_LINES {
            return None;
        }
        let number = self.len()?;
        let first = u32::try_from(self.derivation.hints.len()).ok()?;
        self.derivation.hints.extend_from_slice(hints).ok()?;
        let count = u32::try_from(hints.len()).ok()?;
        let line = Line {
            fact,
            rule,
            first,
            count,
            block: self.block,
        };
        self.derivation.lines.push(line).ok()?;
        Some(number)
    }

    /// The line under this key, if there is one.
    pub(crate) fn known(&self, key: LineKey) -> Option<u32> {
        self.known.get(&key).copied()
    }

    /// Adds a line that may be needed again.
    pub(crate) fn keep(
        &mut self,
        key: LineKey,
        fact: Fact,
        rule: Rule,
        hints: &[u32],
    ) -> Option<u32> {
        let number = self.add(fact, rule, hints)?;
        let _ = self.known.insert(key, number).ok()?;
        Some(number)
    }
}
