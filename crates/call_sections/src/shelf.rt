// Arenas by name.

use std::alloc::{AllocError, Global};

#[derive(Drop)]
struct Named<'t, A> {
    name: &'t [u8],
    arena: A,
}

/// The arenas of one kind of value.
#[derive(Drop)]
pub struct Shelf<'t, A> {
    arenas: Vec<Named<'t, A>>,
}

// The items at two places, the lower one first.
fn ordered<T>(items: &mut [T], i: usize, j: usize) -> Option<(&mut T, &mut T)> {
    if i >= j || j >= items.len() {
        return None;
    }
    let (low, high) = items.split_at_mut(j);
    Some((low.get_mut(i)?, high.first_mut()?))
}

// The items at two places, which are not the same.
fn two_of<T>(items: &mut [T], i: usize, j: usize) -> Option<(&mut T, &mut T)> {
    if i < j {
        return ordered(items, i, j);
    }
    let (second, first) = ordered(items, j, i)?;
    Some((first, second))
}

impl<'t, A: Drop> Shelf<'t, A> {
    pub(crate) fn new(heap: Global) -> Self {
        Shelf {
            arenas: Vec::new(heap),
        }
    }

    fn position(&self, name: &[u8]) -> Option<usize> {
        self.arenas.iter().position(|named| named.name == name)
    }

    pub(crate) fn has(&self, name: &[u8]) -> bool {
        self.position(name).is_some()
    }

    pub(crate) fn get(&mut self, name: &[u8]) -> Option<&mut A> {
        let place = self.position(name)?;
        self.arenas.get_mut(place).map(|named| &mut named.arena)
    }

    /// Two arenas, which are not the same.
    pub(crate) fn pair(&mut self, first: &[u8], second: &[u8]) -> Option<(&mut A, &mut A)> {
        let (i, j) = (self.position(first)?, self.position(second)?);
        let (a, b) = two_of(self.arenas.as_mut_slice(), i, j)?;
        Some((&mut a.arena, &mut b.arena))
    }

    pub(crate) fn remove(&mut self, name: &[u8]) {
        self.arenas.retain(|named| named.name != name);
    }

    pub(crate) fn put(&mut self, name: &'t [u8], arena: A) -> Result<(), AllocError> {
        self.arenas
            .push(Named { name, arena })
            .map_err(AllocError::from)
    }
}
