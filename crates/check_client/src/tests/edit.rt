//! Lists that differ in one place.

use std::alloc::{AllocError, Global};

/// One change of a list.
#[derive(Clone, Copy)]
pub enum Edit<T> {
    None,
    /// Puts one before the element of this place.
    Put(usize, T),
    /// Puts one in its stead.
    Set(usize, T),
    Without(usize),
    /// Moves the element of the first place to the second.
    Move(usize, usize),
}

/// The list with this change.
pub fn edited<T: Copy>(alloc: Global, list: &[T], edit: Edit<T>) -> Result<Vec<T>, AllocError> {
    let mut list = list.to_vec(alloc)?;
    match edit {
        Edit::None => (),
        Edit::Put(place, element) => put(&mut list, place, element)?,
        Edit::Set(place, element) => {
            if let Some(old) = list.get_mut(place) {
                *old = element;
            }
        }
        Edit::Without(place) => {
            if place < list.len() {
                list.remove(place);
            }
        }
        Edit::Move(from, to) => {
            if from < list.len() {
                let element = list.remove(from);
                put(&mut list, to, element)?;
            }
        }
    }
    Ok(list)
}

fn put<T: Copy>(list: &mut Vec<T>, place: usize, element: T) -> Result<(), AllocError> {
    let place = place.min(list.len());
    list.insert(place, element)?;
    Ok(())
}
