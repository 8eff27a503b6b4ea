//! Lists from which an item is taken away at once.
use std::alloc::Global;

/// So many empty lists.
pub(crate) fn empty_lists<T: Drop>(alloc: Global, count: u32) -> Option<Vec<Vec<T>>> {
    let mut lists = Vec::new(alloc);
    for _ in 0..count {
        lists.push(Vec::new(alloc)).ok()?;
    }
    Some(lists)
}

/// Lists of items in any order, and the place of each. An item stands in one of them at most.
#[derive(Drop)]
pub(crate) struct PlacedLists {
    lists: Vec<Vec<u32>>,
    places: Vec<u32>,
}

impl PlacedLists {
    /// So many empty lists, of items below a bound.
    pub(crate) fn new(alloc: Global, count: u32, bound: u32) -> Option<PlacedLists> {
        Some(PlacedLists {
            lists: empty_lists(alloc, count)?,
            places: vec![in alloc; 0; bound as usize].ok()?,
        })
    }

    /// The items of a list.
    pub(crate) fn get(&self, list: u32) -> Option<&[u32]> {
        Some(self.lists.get(list as usize)?.as_slice())
    }

    /// Adds an item that stands in none.
    pub(crate) fn add(&mut self, list: u32, item: u32) -> Option<()> {
        let items = self.lists.get_mut(list as usize)?;
        *self.places.get_mut(item as usize)? = u32::try_from(items.len()).ok()?;
        items.push(item).ok()
    }

    /// Takes an item away: the last one of the list takes its place.
    pub(crate) fn remove(&mut self, list: u32, item: u32) -> Option<()> {
        let items = self.lists.get_mut(list as usize)?;
        let at = *self.places.get(item as usize)?;
        let last = items.pop()?;
        if let Some(place) = items.get_mut(at as usize) {
            *place = last;
            *self.places.get_mut(last as usize)? = at;
        }
        Some(())
    }
}
