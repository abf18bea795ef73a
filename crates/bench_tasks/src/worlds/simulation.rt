//! A world, and what was seen of it.
use crate::worlds::events::{FIRST, SITES, event};
use crate::worlds::looks::{is_part, joined, places, rises};
use rga_ops::{Id, Refusal};
use rga_store::{MAX_LIMIT, TextStore};
use rga_world::{World, WorldRefusal};
use std::alloc::Global;
use test_fixtures::Random;

#[derive(Clone, Copy)]
pub struct Counts {
    pub done: usize,
    pub refused: usize,
    /// How many elements were saved at the last look.
    pub saved: usize,
    pub looks: usize,
    pub differences: usize,
}

#[derive(Drop)]
pub struct Simulation<S: TextStore> {
    world: World<S>,
    random: Random,
    /// The number of the next character to be inserted.
    next: u32,
    /// The order of all that was saved, at the last look.
    saved: Vec<Id>,
    counts: Counts,
}

const NOTHING: Counts = Counts {
    done: 0,
    refused: 0,
    saved: 0,
    looks: 0,
    differences: 0,
};

impl<S: TextStore> Simulation<S> {
    pub fn new(alloc: Global, seed: u64) -> Result<Simulation<S>, WorldRefusal> {
        Ok(Simulation {
            world: World::new(alloc, SITES, MAX_LIMIT)?,
            random: Random::new(seed),
            next: FIRST,
            saved: Vec::new(alloc),
            counts: NOTHING,
        })
    }

    pub fn counts(&self) -> Counts {
        self.counts
    }

    /// One more event. Fails where memory is refused.
    pub fn go_on(&mut self, alloc: Global) -> Result<(), WorldRefusal> {
        let event = event(alloc, &self.world, &mut self.random, &mut self.next)?;
        let stepped = self.world.step(&event);
        self.count(stepped)
    }

    fn count(&mut self, stepped: Result<(), WorldRefusal>) -> Result<(), WorldRefusal> {
        match stepped {
            Ok(()) => self.counts.done = self.counts.done.saturating_add(1),
            Err(WorldRefusal::Store(Refusal::Memory(_))) => return stepped,
            Err(WorldRefusal::Store(Refusal::Conflict(_))) => self.differs(),
            Err(_) => self.counts.refused = self.counts.refused.saturating_add(1),
        }
        Ok(())
    }

    /// Looks at all that is saved, and at each text. Fails where memory is refused.
    pub fn look(&mut self, alloc: Global) -> Result<(), WorldRefusal> {
        self.counts.looks = self.counts.looks.saturating_add(1);
        match joined(alloc, &self.world) {
            Ok(store) => self.compare(alloc, &store),
            Err(WorldRefusal::Store(Refusal::Memory(memory))) => {
                Err(WorldRefusal::Store(Refusal::Memory(memory)))
            }
            Err(_) => {
                self.differs();
                Ok(())
            }
        }
    }

    fn compare(&mut self, alloc: Global, store: &S) -> Result<(), WorldRefusal> {
        let order = store.order()?;
        if !is_part(&self.saved, &order) {
            self.differs();
        }
        let places = places(alloc, store, &order, self.next)?;
        self.counts.saved = order.len();
        self.saved = order;
        self.compare_texts(&places)
    }

    fn compare_texts(&mut self, places: &[usize]) -> Result<(), WorldRefusal> {
        for site in 0..SITES {
            self.compare_text(site, places)?;
        }
        Ok(())
    }

    fn compare_text(&mut self, site: usize, places: &[usize]) -> Result<(), WorldRefusal> {
        if !rises(&self.world.text(site)?, places) {
            self.differs();
        }
        Ok(())
    }

    fn differs(&mut self) {
        self.counts.differences = self.counts.differences.saturating_add(1);
    }
}
