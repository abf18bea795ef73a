//! What is looked at.
use crate::worlds::events::{FIRST, SITES};
use rga_ops::{Id, Refusal};
use rga_store::{MAX_LIMIT, TextStore};
use rga_world::{World, WorldRefusal};
use std::alloc::Global;

/// All that is saved at any site. A conflict is a refusal.
pub fn joined<S: TextStore>(alloc: Global, world: &World<S>) -> Result<S, WorldRefusal> {
    let mut store = S::new(alloc, MAX_LIMIT)?;
    join_all(&mut store, world)?;
    Ok(store)
}

fn join_all<S: TextStore>(store: &mut S, world: &World<S>) -> Result<(), WorldRefusal> {
    for site in 0..SITES {
        store.apply_all(&world.saved_ops(site)?)?;
    }
    Ok(())
}

/// Whether a list is a part of another, in its order.
pub fn is_part(part: &[Id], whole: &[Id]) -> bool {
    let mut found = 0;
    for id in whole {
        if part.get(found) == Some(id) {
            found += 1;
        }
    }
    found >= part.len()
}

/// Of each inserted character, by its number, one more than its place in the order of the store, or
/// 0 where it is not there.
pub fn places<S: TextStore>(
    alloc: Global,
    store: &S,
    order: &[Id],
    next: u32,
) -> Result<Vec<usize>, Refusal> {
    let mut places = vec![in alloc; 0usize; next.saturating_sub(FIRST) as usize]?;
    for (place, id) in order.iter().enumerate() {
        if let Some((_, ch)) = store.get(*id) {
            enter(&mut places, ch, place);
        }
    }
    Ok(places)
}

fn enter(places: &mut Vec<usize>, ch: char, place: usize) {
    if let Some(entry) = places.get_mut(number_of(ch)) {
        *entry = place.saturating_add(1);
    }
}

fn number_of(ch: char) -> usize {
    u32::from(ch).saturating_sub(FIRST) as usize
}

/// Whether those characters of a text that have a place stand by rising places.
pub fn rises(text: &[char], places: &[usize]) -> bool {
    let mut last = 0;
    for ch in text {
        let place = places.get(number_of(*ch)).copied().unwrap_or(0);
        if place > 0 && place <= last {
            return false;
        }
        last = last.max(place);
    }
    true
}
