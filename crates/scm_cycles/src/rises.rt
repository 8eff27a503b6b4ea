//! How clocks rose.
use crate::placed_lists::empty_lists;
use std::alloc::Global;

/// The most rises of a trace: one that has more gets no list.
const MOST_RISES: usize = 1 << 25;

/// From this place on the clocks of a process have this count, by this step.
#[derive(Clone, Copy)]
struct Rise {
    at: u32,
    count: u32,
    by: u32,
}

/// For each two processes the rises of how many of the one come before the operations of the other, by steps that lead into
/// the latter, in the order in which they came.
#[derive(Drop)]
pub(crate) struct Rises {
    procs: u32,
    lists: Vec<Vec<Rise>>,
    /// In which list each rise stands, from the oldest on.
    places: Vec<u32>,
}

impl Rises {
    pub(crate) fn new(alloc: Global, procs: u32) -> Option<Rises> {
        Some(Rises {
            procs,
            lists: empty_lists(alloc, procs.checked_mul(procs)?)?,
            places: Vec::new(alloc),
        })
    }

    fn place(&self, owner: u32, process: u32) -> Option<usize> {
        let place = owner.checked_mul(self.procs)?.checked_add(process)?;
        Some(place as usize)
    }

    /// So many of a process come before this place of its owner from now on, by this step.
    pub(crate) fn add(
        &mut self,
        spot: (u32, u32),
        process: u32,
        count: u32,
        by: u32,
    ) -> Option<()> {
        let (owner, at) = spot;
        let place = self.place(owner, process)?;
        if self.places.len() >= MOST_RISES {
            return None;
        }
        let rise = Rise { at, count, by };
        self.lists.get_mut(place)?.push(rise).ok()?;
        self.places.push(u32::try_from(place).ok()?).ok()
    }

    /// How many there are.
    pub(crate) fn len(&self) -> usize {
        self.places.len()
    }

    /// How many a list has, in the mean.
    pub(crate) fn len_of_list(&self) -> Option<usize> {
        self.places.len().checked_div(self.lists.len())
    }

    /// Takes back all but the first so many.
    pub(crate) fn take_back(&mut self, kept: usize) -> Option<()> {
        for _ in kept..self.places.len() {
            let place = self.places.pop()?;
            let _ = self.lists.get_mut(place as usize)?.pop();
        }
        Some(())
    }

    /// The step by which so many of a process came before this place of its owner first.
    pub(crate) fn first(&self, spot: (u32, u32), process: u32, count: u32) -> Option<u32> {
        let (owner, at) = spot;
        let list = self.lists.get(self.place(owner, process)?)?;
        let rise = list
            .iter()
            .find(|rise| rise.at <= at && rise.count >= count)?;
        Some(rise.by)
    }
}
