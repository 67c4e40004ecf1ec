//! Names of texts, each kept once, and named by small numbers: a text has few functions, callers and datatypes.

use std::alloc::{AllocError, Global};

/// How many names are looked for at one place each before all are searched: calls of a text repeat few.
const RECENT: usize = 64;

/// Names by their numbers, which begin with 1: 0 is none.
#[derive(Drop)]
pub(crate) struct Names {
    list: Vec<Vec<u8>>,
    /// The numbers of the names, in order of the names.
    order: Vec<u32>,
    /// The number that was told last of the names with each place; 0 where none was.
    recent: [u32; RECENT],
}

/// The place of a name among the recent ones: by its length and two of its bytes.
fn recent_place(name: &[u8]) -> usize {
    match name {
        [first, .., last] => {
            let mixed = name.len().wrapping_mul(7)
                ^ (*first as usize)
                ^ (*last as usize).wrapping_mul(3);
            mixed % RECENT
        }
        _ => 0,
    }
}

/// The name of a number.
fn name_in(list: &[Vec<u8>], number: u32) -> &[u8] {
    let Some(at) = number.checked_sub(1) else {
        return &[];
    };
    match list.get(at as usize) {
        Some(name) => name.as_slice(),
        None => &[],
    }
}

/// Where the number of a name stands, or else where it would.
fn place_of(list: &[Vec<u8>], order: &[u32], name: &[u8]) -> Result<usize, usize> {
    order.binary_search_by(|number| name_in(list, *number).cmp(&name))
}

impl Names {
    /// No names. It takes no memory.
    pub fn new(alloc: Global) -> Names {
        Names {
            list: Vec::new(alloc),
            order: Vec::new(alloc),
            recent: [0; RECENT],
        }
    }

    /// The name of a number; `None` for 0.
    pub fn name(&self, number: u32) -> Option<&[u8]> {
        if number == 0 {
            return None;
        }
        Some(name_in(&self.list, number))
    }

    /// The number of a name, which is kept if it is new. Fails with `AllocError` when memory is refused.
    pub fn number(&mut self, name: &[u8]) -> Result<u32, AllocError> {
        let place = recent_place(name);
        let recent = self.recent.get(place).copied().unwrap_or(0);
        if recent != 0 && name_in(&self.list, recent) == name {
            return Ok(recent);
        }
        let number = self.searched(name)?;
        if let Some(recent) = self.recent.get_mut(place) {
            *recent = number;
        }
        Ok(number)
    }

    /// The same, by a search among all names.
    fn searched(&mut self, name: &[u8]) -> Result<u32, AllocError> {
        match place_of(&self.list, &self.order, name) {
            Ok(at) => Ok(self.order.get(at).copied().unwrap_or(0)),
            Err(at) => self.keep(at, name),
        }
    }

    /// The number of a name, where there is one; 0 where there is none.
    pub fn number_of(&mut self, name: Option<&[u8]>) -> Result<u32, AllocError> {
        match name {
            Some(name) => self.number(name),
            None => Ok(0),
        }
    }

    /// Keeps a new name, whose number comes to this place. The last number stays without a name: it is no name's.
    fn keep(&mut self, at: usize, name: &[u8]) -> Result<u32, AllocError> {
        let Ok(number) = u32::try_from(self.list.len().saturating_add(1)) else {
            return Ok(0);
        };
        if at > self.order.len() {
            return Ok(0);
        }
        let copy = Vec::from_slice(*self.list.allocator(), name)?;
        self.order.insert(at, number)?;
        self.list.push(copy)?;
        Ok(number)
    }
}
