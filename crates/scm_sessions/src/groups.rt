//! The lines of a script, grouped by the names that they begin with.
ghost use Rattle.std.specs.Prelude.{◌≡◌, ◌≢◌, ◌<◌, ◌↔◌, ◌++◌, ◌∷◌, [], length, true, false, option_copied, IfOk, IfErr, OnOk, IsErrOf};
ghost use Rattle.std.specs.List.{position_or_len};
ghost use Rattle.scm_sessions.specs.Asking.{line_given, asked_data, name_in};
ghost use Rattle.scm_sessions.specs.Script.{has_reply as has_reply_data, inner_of, has_failed};
ghost use Rattle.scm_sessions.specs.inner.Reading.{unread_of};
ghost use Rattle.scm_sessions.specs.inner.Numbered.{line_data};
ghost use Rattle.scm_sessions.specs.inner.Findings.{unanswered, with_line};
ghost use Rattle.scm_sessions.specs.inner.Groups.{group, has_name, with_numbered, with_next, with_group, GroupsWhole, GroupsWholeLines};

use crate::asking::{Asked, read_asked};
use crate::numbered::NumberedLine;
use crate::reading::{Cut, LineReader};
use crate::{Findings, Port, RunFault};
use indexmap::IndexSet;
use scm_cells::Name;
use scm_sequences::NoMemory;
use std::alloc::Global;
use std::collections::VecDeque;
use std::io::Read;
use std::marker::Model;

/// The lines of one name, in order; those without a name, where it has none.
#[derive(Drop)]
pub(crate) struct Group {
    pub(crate) name: Option<Name>,
    pub(crate) lines: VecDeque<NumberedLine>,
}

/// The lines of a script that have a reply, in groups by name.
#[derive(Drop)]
pub(crate) struct Groups {
    alloc: Global,
    names: IndexSet<Option<Name>>,
    groups: Vec<Group>,
}

impl Model for Group {
    ghost use Rattle.std.specs.Prelude.{map};
    ghost use Rattle.scm_sessions.specs.inner.Numbered.{line_data};
    ghost use Rattle.scm_sessions.specs.inner.Groups.{GroupData, group};

    ghost Value = { GroupData };

    ghost view = { λ g. group g.name (map line_data g.lines.items) };
}

impl Model for Groups {
    ghost use Rattle.std.specs.Prelude.{◌≡◌, List};
    ghost use Rattle.scm_sessions.specs.inner.Groups.{GroupData, group_names};

    ghost Value = { List GroupData };

    ghost view = { λ g. g.groups.items };

    ghost invariant = { λ g. g.names.keys ≡ group_names g.groups.items };
}

/// The name that a line begins with, where it has a reply.
fn name_of(asked: &Asked) -> Option<Name>
    ensures { result ≡ name_in (asked_data asked.now) }
{
    match asked {
        Asked::Nothing => None,
        Asked::Bad(name) => *name,
        Asked::Good { session, .. } => Some(*session),
    }
}

/// Whether a line that asks this has a reply.
fn has_reply(asked: &Asked) -> bool
    ensures { result ≡ has_reply_data (asked_data asked.now) }
{
    !matches!(asked, Asked::Nothing)
}

impl Group {
    /// No line has this name yet.
    fn new(alloc: Global, name: Option<Name>) -> Group
        ensures { result ≡ group name [] }
    {
        Group {
            name,
            lines: VecDeque::new(alloc),
        }
    }

    /// Puts a line last.
    fn push(&mut self, line: NumberedLine) -> Result<(), NoMemory>
        ensures name { self.new.name ≡ self.old.name }
        ensures ok { OnOk result (self.new ≡ group self.old.name (self.old.lines ++ line_data line ∷ [])) }
    {
        self.lines.push_back(line)?;
        Ok(())
    }
}

impl Groups {
    /// No line was read.
    pub(crate) fn new(alloc: Global) -> Groups
        ensures { result ≡ [] }
    {
        Groups {
            alloc,
            names: IndexSet::new(alloc),
            groups: Vec::new(alloc),
        }
    }

    /// The place of the group of the name that the line begins with. A new one comes last, with no line.
    fn place_of(&mut self, asked: &Asked) -> Result<usize, NoMemory>
        ensures place { IfOk result (λ place. place ≡ position_or_len (has_name (name_in (asked_data asked.now))) self.old) }
        ensures within { IfOk result (λ place. place < length self.new) }
        ensures groups { OnOk result (self.new ≡ with_group self.old (name_in (asked_data asked.now))) }
    {
        let alloc = self.alloc;
        self.groups.reserve(1)?;
        let (place, is_new) = self.names.insert_full(name_of(asked))?;
        if is_new {
            let group = Group::new(alloc, name_of(asked));
            self.groups.push_reserved(group);
        }
        Ok(place)
    }

    /// Puts a line into the group of its name.
    fn push(&mut self, line: NumberedLine) -> Result<(), NoMemory>
        ensures { OnOk result (self.new ≡ with_numbered self.old (line_data line)) }
    {
        let place = self.place_of(&line.asked)?;
        self.groups[place].push(line)
    }

    /// Puts the line of this number into the group of its name, where it has a reply; `None` stands for a line that is too
    /// long.
    fn push_line(&mut self, number: u64, line: Option<&[u8]>) -> Result<(), NoMemory>
        ensures { OnOk result (self.new ≡ with_next self.old number (line_given (option_copied line.entry))) }
    {
        match read_asked(self.alloc, line) {
            Ok(asked) => {
                if has_reply(&asked) {
                    return self.push(NumberedLine { number, asked });
                }
                Ok(())
            }
            Err(_) => Err(NoMemory),
        }
    }

    /// Counts the next line, and puts it into the group of its name, where it has a reply.
    fn push_next(&mut self, line: Option<&[u8]>, findings: &mut Findings) -> Result<(), NoMemory>
        ensures counted { findings.new ≡ with_line findings.old }
        ensures groups { OnOk result (self.new ≡ with_next self.old findings.new.lines (line_given (option_copied line.entry))) }
    {
        findings.add_line();
        self.push_line(findings.lines(), line)
    }

    /// Reads the script up to its end or to a fault, and groups its whole lines, which are counted among the findings. Memory
    /// may be refused at any of them.
    pub(crate) fn read<R: Read>(
        &mut self,
        lines: &mut LineReader,
        reader: &mut Port<R>,
        findings: &mut Findings,
    ) -> Result<(), RunFault>
        requires new { self.old ≡ [] }
        requires uncounted { findings.old ≡ unanswered 0 }
        requires fresh { unread_of lines.old ≡ [] }
        requires reads { has_failed reader.old ≡ false }
        ensures ok { OnOk result (GroupsWhole (R.remaining (inner_of reader.old)) (R.remaining (inner_of reader.new))
            self.new findings.new) }
        ensures read_failed { IsErrOf result RunFault.ReadFailed →
            GroupsWholeLines (R.remaining (inner_of reader.old)) (R.remaining (inner_of reader.new)) self.new }
        ensures reader_failed { IsErrOf result RunFault.ReadFailed ↔ (has_failed reader.new ≡ true) }
        ensures fault { IfErr result (λ fault. fault ≢ RunFault.WriteFailed) }
    {
        'each: loop {
            match lines.next_line(reader)? {
                Cut::Whole => self.push_next(lines.line(), findings)?,
                Cut::Last => {
                    self.push_next(lines.line(), findings)?;
                    return Ok(());
                }
                Cut::End => return Ok(()),
            }
        }
    }

    /// The groups, in the order in which lines first have their names.
    pub(crate) fn into_groups(self) -> Vec<Group>
        ensures { result.items ≡ self }
    {
        self.groups
    }
}
