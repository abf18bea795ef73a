//! Random events.
use rga_ops::Refusal;
use rga_store::TextStore;
use rga_world::{Event, World};
use std::alloc::Global;
use test_fixtures::Random;

/// How many sites there are.
pub const SITES: usize = 8;

/// The number of the first character that is inserted.
pub const FIRST: u32 = 0x10000;

/// An event; now and then one that has to be refused. It inserts characters from `next` on.
pub fn event<S: TextStore>(
    alloc: Global,
    world: &World<S>,
    random: &mut Random,
    next: &mut u32,
) -> Result<Event, Refusal> {
    match random.below(16) {
        0..=4 => edit(alloc, world, random, next),
        5 | 6 => Ok(Event::Save {
            site: random.below(SITES),
        }),
        7 => Ok(Event::Restart {
            site: random.below(SITES),
        }),
        _ => Ok(delivery(world, random)),
    }
}

/// A few characters of a site's text are replaced by a few others.
fn edit<S: TextStore>(
    alloc: Global,
    world: &World<S>,
    random: &mut Random,
    next: &mut u32,
) -> Result<Event, Refusal> {
    let site = random.below(SITES.saturating_add(1));
    let lo = random.below(length(world, site).saturating_add(1));
    let hi = lo.saturating_add(random.below(3));
    let put = characters(alloc, random.below(4), next)?;
    Ok(Event::Edit { site, lo, hi, put })
}

/// How long the text of a site is.
fn length<S: TextStore>(world: &World<S>, site: usize) -> usize {
    match world.text(site) {
        Ok(text) => text.len(),
        Err(_) => 0,
    }
}

/// So many characters, from `next` on.
fn characters(alloc: Global, count: usize, next: &mut u32) -> Result<Vec<char>, Refusal> {
    let mut put = Vec::new(alloc);
    for _ in 0..count {
        let Some(ch) = char::from_u32(*next) else {
            return Err(Refusal::Range);
        };
        put.push(ch)?;
        *next = next.saturating_add(1);
    }
    Ok(put)
}

/// One of what a site has saved is delivered to another, or one that it has not.
fn delivery<S: TextStore>(world: &World<S>, random: &mut Random) -> Event {
    let taker = random.below(SITES);
    let giver = random.below(SITES);
    let place = random.below(saved(world, giver).saturating_add(1));
    Event::Deliver {
        taker,
        giver,
        place,
    }
}

/// How many operations a site has saved.
fn saved<S: TextStore>(world: &World<S>, site: usize) -> usize {
    match world.saved_ops(site) {
        Ok(ops) => ops.len(),
        Err(_) => 0,
    }
}
