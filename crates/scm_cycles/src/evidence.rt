//! What a step about what a read may see follows from.
use crate::drawn_steps::Need;
use crate::read_views::{ReadView, Share, part};
use crate::search::Search;

/// What is to be shown of the writes that are left: nothing, or that each is this operation or comes after it, or that each
/// comes before it.
#[derive(Clone, Copy)]
pub(crate) enum Goal {
    Nothing,
    After(u32),
    Before(u32),
}

impl Search {
    /// What shows that each write that the read may see is ruled out or as it is to be, and so of first contents.
    pub(crate) fn needs(&self, view: &ReadView, goal: Goal) -> Option<Vec<Need>> {
        let mut needs = Vec::new(self.alloc);
        for share in &view.shares {
            self.add_needs(&mut needs, view, *share, goal)?;
        }
        if !view.is_first_left {
            self.add_first(&mut needs, view)?;
        }
        Some(needs)
    }

    fn add_needs(
        &self,
        needs: &mut Vec<Need>,
        view: &ReadView,
        share: Share,
        goal: Goal,
    ) -> Option<()> {
        if let Some(write) = share.hidden {
            needs.push(self.hiding(view, write)?).ok()?;
        }
        for (from, to) in share.unseen {
            self.add_unseen(needs, view, from, to)?;
        }
        if let Some((first, last)) = share.left {
            match goal {
                Goal::After(from) if from != first => needs
                    .push(Need::Order { from, to: first })
                    .ok()?,
                Goal::Before(to) => needs.push(Need::Order { from: last, to }).ok()?,
                _ => {}
            }
        }
        if let Some(to) = share.later {
            let from = view.read;
            needs.push(Need::Order { from, to }).ok()?;
        }
        Some(())
    }

    // The steps that rule out the writes between two places of the value's list.
    fn add_unseen(&self, needs: &mut Vec<Need>, view: &ReadView, from: u32, to: u32) -> Option<()> {
        for write in part(self.given.writers.of(view.value)?, from, to) {
            let id = self.unseen(*write, view.read)??;
            needs.push(Need::Step(id)).ok()?;
        }
        Some(())
    }

    // How a write is hidden from the read: by a later one of its process, where one is before the read.
    fn hiding(&self, view: &ReadView, write: u32) -> Option<Need> {
        let read = view.read;
        let (process, _) = self.given.numbering.spot(write)?;
        if let Some(from) = *view.last_writes.get(process as usize)?
            && from > write
        {
            return Some(Need::Hiding { from, to: read });
        }
        for by in view.last_writes.iter().flatten() {
            if self.is_before(write, *by)? {
                return Some(Need::Hidden {
                    write,
                    by: *by,
                    read,
                });
            }
        }
        None
    }

    // What rules out first contents, where they aren't known to be another value: a write that hides others too, or any
    // before the read, or what another read tells.
    fn add_first(&self, needs: &mut Vec<Need>, view: &ReadView) -> Option<()> {
        let is_known = self
            .given
            .values
            .first(view.cell)?
            .is_some_and(|first| first != view.value);
        if is_known || needs.iter().any(|need| matches!(need, Need::Hiding { .. })) {
            return Some(());
        }
        let need = match view.last_writes.iter().flatten().next() {
            Some(from) => Need::Hiding {
                from: *from,
                to: view.read,
            },
            None => {
                let telling = self.read_facts.first(view.cell)?.map(|(_, id)| id);
                Need::Step(self.unseen_first(view.read)?.or(telling)?)
            }
        };
        needs.push(need).ok()
    }
}
