//! A world.
ghost use Rattle.std.specs.Prelude.{◌≡◌, ◌≢◌, ◌<◌, ◌⊎◌, ℕ, Some, None, Ok, Err, IfOk, IfErr, OnOk, OnErr, MatchResult, true, false, length, take, slice_get};
ghost use Rattle.rga_ops.specs.Prelude.{Identifier, operations, text, Memory};
ghost use Rattle.rga_store.specs.Limit.{is_limit};
ghost use Rattle.rga_world.specs.Outcomes.{MayWantMemory, is_count};
ghost use Rattle.rga_world.specs.Sites.{Site, new_world};
ghost use Rattle.rga_world.specs.Steps.{stepped, ran};
ghost use Rattle.rga_world.specs.Together.{IsReached};
ghost use Rattle.rga_ops.specs.declared.refusal.Refusal.TheVariants.{Conflict, Range};
ghost use Rattle.rga_world.specs.declared.refusal.WorldRefusal.TheVariants.{NoSite, Store};
ghost use Rattle.rga_world.specs.declared.event.Event.{Event};

use crate::characters::puts_characters;
use crate::event::Event;
use crate::refusal::WorldRefusal;
use crate::sites::Sites;
use rga_ops::Op;
use rga_store::TextStore;
use std::alloc::Global;
use std::marker::Model;

/// How many sites a world has at most.
pub const MAX_SITES: usize = 64;

/// Sites, each with a document and a saved content. The replica of a site is one more than its
/// number. Whatever is asked of a world, some list of events has made it of sites that hold nothing.
#[derive(Drop)]
pub struct World<S: TextStore> {
    sites: Sites<S>,
}

impl<S: TextStore> Model for World<S> {
    ghost use Rattle.rga_world.specs.Sites as spec;
    ghost use Rattle.rga_world.specs.Together.{IsReached};

    ghost Value = { spec.World };

    ghost coded = { spec.world_code };

    ghost view = { λ w. w.sites };

    ghost invariant = { λ w. IsReached w.sites };
}

impl<S: TextStore> World<S> {
    /// So many sites that hold nothing, each of which may know `limit` identifiers.
    ///
    /// Refusals, in this order: `NoSite` unless there are 1 to `MAX_SITES`; `Store` with `Range`
    /// for a limit that no store has; `Store` with `Memory`.
    pub fn new(alloc: Global, sites: usize, limit: usize) -> Result<World<S>, WorldRefusal>
        ensures number { is_count sites ≡ false → result ≡ Err NoSite }
        ensures range { is_count sites ≡ true → is_limit limit ≡ false →
            result ≡ Err (Store Range) }
        ensures made { is_count sites ≡ true → is_limit limit ≡ true → MatchResult result
            (λ w. w ≡ new_world sites limit) (λ e. e ≡ Store Memory) }
    {
        if sites < 1 || sites > MAX_SITES {
            return Err(WorldRefusal::NoSite);
        }
        Ok(World {
            sites: Sites::new(alloc, sites, limit)?,
        })
    }

    /// One event happens, or is refused and changes nothing.
    ///
    /// Refusals, in this order: `NoSite` if a site does not exist; `NoOperation` if the giver has
    /// saved none at that place, or fewer than a list asks for, or if the places of a list are out of
    /// order, or if the site holds none at the place of the one to be saved; `Store` if the site's
    /// store refuses, never with `Conflict`, and to a save with `Memory` alone. `Store` with `Memory`
    /// may come in the place of `NoOperation`, unless the places are out of order.
    pub fn step(&mut self, event: &Event) -> Result<(), WorldRefusal>
        ensures happened { OnOk result (stepped self.old event.now ≡ Ok self.new) }
        ensures refused { IfErr result (λ e.
            (e ≡ Store Memory) ⊎ (stepped self.old event.now ≡ Err e)) }
        ensures same { OnErr result (self.new ≡ self.old) }
        // Nothing asks for memory before the sites are found; of an edit and of a revert the room;
        // and of an edit and of a list places that are in order.
        ensures memory { result ≡ Err (Store Memory) → MayWantMemory self.old event.now }
        ensures no_conflict { (id : Identifier) → result ≢ Err (Store (Conflict id)) }
    {
        puts_characters(event);
        self.sites.step(event)
    }

    /// Events happen in turn, up to the first that is refused, whose place is answered with the
    /// refusal. Those before it stand.
    pub fn run(&mut self, events: &[Event]) -> Result<(), (usize, WorldRefusal)>
        ensures happened { OnOk result (ran self.old events.now ≡ Ok self.new) }
        ensures before { IfErr result (λ p. ran self.old (take p.0 events.now) ≡ Ok self.new) }
        ensures refused { IfErr result (λ p. (event : Event)
            × (slice_get events.now p.0 ≡ Some event)
            × (((p.1 ≡ Store Memory) × MayWantMemory self.new event)
            ⊎ (stepped self.new event ≡ Err p.1))) }
        ensures no_conflict { (place : ℕ) (id : Identifier) →
            result ≢ Err (place, Store (Conflict id)) }
    {
        for (place, event) in events.iter().enumerate() {
            if let Err(refusal) = self.step(event) {
                return Err((place, refusal));
            }
        }
        Ok(())
    }

    /// The characters that a site shows. `NoSite` where there is no such site; then `Store` with
    /// `Memory`.
    pub fn text(&self, site: usize) -> Result<Vec<char>, WorldRefusal>
        ensures ok { IfOk result (λ chars. (s : Site)
            × (slice_get self.now.sites site ≡ Some s) × (chars.items ≡ text s.content)) }
        ensures refused { IfErr result (λ e.
            ((e ≡ NoSite) × (slice_get self.now.sites site ≡ None))
            ⊎ ((e ≡ Store Memory) × (site < length self.now.sites))) }
        ensures reached { IsReached self.now }
    {
        Ok(self.sites.at(site)?.text()?)
    }

    /// The operations that a site has saved: the insertions by rising identifier, and then the
    /// deletions by rising identifier. `NoSite` where there is no such site; then `Store` with
    /// `Memory`.
    pub fn saved_ops(&self, site: usize) -> Result<Vec<Op>, WorldRefusal>
        ensures ok { IfOk result (λ ops. (s : Site)
            × (slice_get self.now.sites site ≡ Some s) × (ops.items ≡ operations s.saved)) }
        ensures refused { IfErr result (λ e.
            ((e ≡ NoSite) × (slice_get self.now.sites site ≡ None))
            ⊎ ((e ≡ Store Memory) × (site < length self.now.sites))) }
        ensures reached { IsReached self.now }
    {
        Ok(self.sites.at(site)?.saved_ops()?)
    }
}
