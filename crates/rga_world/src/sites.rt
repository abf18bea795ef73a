//! Sites by their numbers.
ghost use Rattle.std.specs.Prelude.{◌≡◌, ◌<◌, ◌≤◌, Some, None, Ok, Err, MatchResult, true, false, length, slice_get};
ghost use Rattle.rga_store.specs.Limit.{is_limit};
ghost use Rattle.rga_world.specs.Outcomes.{Happens, MayWantMemory};
ghost use Rattle.rga_world.specs.Sites.{new_world};
ghost use Rattle.rga_world.specs.Steps.{alone, own_site, delivered, list_delivered, replica_of, changed, given, stepped, saved_operation, saved_list};
ghost use Rattle.rga_ops.specs.Prelude.{Memory};
ghost use Rattle.rga_world.specs.declared.refusal.WorldRefusal.TheVariants.{Store};

use crate::event::Event;
use crate::refusal::WorldRefusal;
use crate::site::Site;
use crate::world::MAX_SITES;
use rga_ops::{Op, Refusal};
use rga_store::TextStore;
use std::alloc::Global;
use std::marker::Model;

/// Sites whose replicas are numbered from 1, all with one limit.
#[derive(Drop)]
pub(crate) struct Sites<S: TextStore> {
    alloc: Global,
    all: Vec<Site<S>>,
    limit: usize,
}

impl<S: TextStore> Model for Sites<S> {
    ghost use Rattle.std.specs.Prelude.{map};
    ghost use Rattle.rga_world.specs.Sites.{World, world, world_code};
    ghost use Rattle.rga_world.specs.SiteStates.{AreSites};

    ghost Value = { World };

    ghost coded = { world_code };

    ghost view = { λ a. world (map (λ s. s.site) a.all.items) a.limit };

    ghost invariant = { λ a. AreSites a.limit a.all.items };
}

impl<S: TextStore> Sites<S> {
    /// So many sites that hold nothing. `Range` for a limit that no store has; then `Memory`.
    pub(crate) fn new(alloc: Global, count: usize, limit: usize) -> Result<Sites<S>, Refusal>
        requires some { 1 ≤ count }
        requires few { count ≤ MAX_SITES }
        ensures range { is_limit limit ≡ false → result ≡ Err Refusal.Range }
        ensures made { is_limit limit ≡ true → MatchResult result
            (λ w. w ≡ new_world count limit) (λ e. e ≡ Memory) }
    {
        let mut all = Vec::new(alloc);
        for number in 0..count {
            all.push(Site::new(alloc, number as u16 + 1, limit)?)?;
        }
        Ok(Sites { alloc, all, limit })
    }

    /// The site of a number.
    pub(crate) fn at(&self, number: usize) -> Result<&Site<S>, WorldRefusal>
        ensures { MatchResult result
            (λ s. slice_get self.now.sites number ≡ Some s.now.site)
            (λ e. (e ≡ WorldRefusal.NoSite) × (slice_get self.now.sites number ≡ None)) }
    {
        if number >= self.all.as_slice().len() {
            return Err(WorldRefusal::NoSite);
        }
        Ok(&self.all[number])
    }

    /// An event of one site alone.
    fn alone(&mut self, number: usize, event: &Event) -> Result<(), WorldRefusal>
        requires { own_site event.now ≡ Some number }
        ensures happens { Happens result self.old self.new (changed self.old number
            (alone self.old.limit (replica_of number) event.now)) }
        ensures memory { result ≡ Err (Store Memory) → MayWantMemory self.old event.now }
    {
        if number >= self.all.as_slice().len() {
            return Err(WorldRefusal::NoSite);
        }
        self.all[number].step(self.alloc, event)
    }

    fn take(&mut self, number: usize, op: Op) -> Result<(), WorldRefusal>
        ensures happens { Happens result self.old self.new
            (changed self.old number (delivered self.old.limit op)) }
        ensures memory { result ≡ Err (Store Memory) → number < length self.old.sites }
    {
        if number >= self.all.as_slice().len() {
            return Err(WorldRefusal::NoSite);
        }
        self.all[number].take(op)
    }

    fn deliver(&mut self, taker: usize, giver: usize, place: usize) -> Result<(), WorldRefusal>
        ensures happens { Happens result self.old self.new (changed self.old taker
            (given self.old giver (λ g. saved_operation g place) (delivered self.old.limit))) }
        ensures memory { result ≡ Err (Store Memory) →
            (taker < length self.old.sites) × (giver < length self.old.sites) }
    {
        let _taker = self.at(taker)?;
        let op = self.at(giver)?.saved_operation(place)?;
        self.take(taker, op)
    }

    fn take_list(&mut self, number: usize, ops: &[Op]) -> Result<(), WorldRefusal>
        ensures happens { Happens result self.old self.new
            (changed self.old number (list_delivered self.old.limit ops.now)) }
        ensures memory { result ≡ Err (Store Memory) → number < length self.old.sites }
    {
        if number >= self.all.as_slice().len() {
            return Err(WorldRefusal::NoSite);
        }
        self.all[number].take_list(ops)
    }

    fn deliver_list(
        &mut self,
        taker: usize,
        giver: usize,
        lo: usize,
        hi: usize,
    ) -> Result<(), WorldRefusal>
        ensures happens { Happens result self.old self.new (changed self.old taker
            (given self.old giver (λ g. saved_list g lo hi) (list_delivered self.old.limit))) }
        ensures memory { result ≡ Err (Store Memory) →
            (taker < length self.old.sites) × (giver < length self.old.sites) × (lo ≤ hi) }
    {
        let _taker = self.at(taker)?;
        let ops = self.at(giver)?.saved_list(self.alloc, lo, hi)?;
        self.take_list(taker, &ops)
    }

    pub(crate) fn step(&mut self, event: &Event) -> Result<(), WorldRefusal>
        ensures happens { Happens result self.old self.new (stepped self.old event.now) }
        ensures memory { result ≡ Err (Store Memory) → MayWantMemory self.old event.now }
    {
        match event {
            Event::Edit { site, .. } => self.alone(*site, event),
            Event::Revert { site, .. } => self.alone(*site, event),
            Event::Save { site } => self.alone(*site, event),
            Event::SaveOne { site, .. } => self.alone(*site, event),
            Event::Deliver {
                taker,
                giver,
                place,
            } => self.deliver(*taker, *giver, *place),
            Event::DeliverList {
                taker,
                giver,
                lo,
                hi,
            } => self.deliver_list(*taker, *giver, *lo, *hi),
            Event::Restart { site } => self.alone(*site, event),
        }
    }
}
