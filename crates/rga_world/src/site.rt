//! A site.
ghost use Rattle.std.specs.Prelude.{◌≡◌, ◌≤◌, ◌⊎◌, Some, None, IfOk, IfErr, MatchResult, true, false, length, slice_get};
ghost use Rattle.rga_ops.specs.Prelude.{operations, text, Memory};
ghost use Rattle.rga_store.specs.Limit.{is_limit};
ghost use Rattle.rga_world.specs.Outcomes.{Happens, HasRoomAlone};
ghost use Rattle.rga_world.specs.SiteStates.{new_site};
ghost use Rattle.rga_world.specs.Steps.{alone, delivered, list_delivered, saved_list, saved_one};
ghost use Rattle.std.specs.Prelude.{Ok, Err};

use crate::event::Event;
use crate::refusal::WorldRefusal;
use rga_doc::Doc;
use rga_ops::{Op, OutOfMemory, Refusal};
use rga_store::{Taker, TextStore};
use std::alloc::Global;
use std::marker::Model;

/// A document, and a store of what was saved of it, with one limit.
#[derive(Drop)]
pub(crate) struct Site<S: TextStore> {
    document: Doc<S>,
    saved: S,
}

impl<S: TextStore> Model for Site<S> {
    ghost use Rattle.std.specs.Prelude.{◌≡◌, ◌≤◌};
    ghost use Rattle.rga_world.specs.Sites.{site};
    ghost use Rattle.rga_world.specs.SiteStates.{SiteState, site_state, site_state_code};

    ghost Value = { SiteState };

    ghost coded = { site_state_code };

    ghost view = { λ s. site_state (site s.document.content (S.content s.saved))
        s.document.replica s.document.limit };

    ghost invariant = { λ s. (S.limit s.saved ≡ s.document.limit) × (1 ≤ s.document.replica) };
}

impl<S: TextStore> Site<S> {
    /// A site that holds nothing and has saved nothing. `Range` for a limit that no store has; then
    /// `Memory`.
    pub(crate) fn new(alloc: Global, replica: u16, limit: usize) -> Result<Site<S>, Refusal>
        requires { 1 ≤ replica }
        ensures range { is_limit limit ≡ false → result ≡ Err Refusal.Range }
        ensures made { is_limit limit ≡ true → MatchResult result
            (λ s. s ≡ new_site replica limit) (λ e. e ≡ Memory) }
    {
        let document = Doc::new(alloc, S::new(alloc, limit)?, replica)?;
        let saved = S::new(alloc, limit)?;
        Ok(Site { document, saved })
    }

    /// An event of this site alone happens. A delivery leaves the site as it is.
    pub(crate) fn step(&mut self, alloc: Global, event: &Event) -> Result<(), WorldRefusal>
        ensures happens { Happens result self.old.site self.new.site
            (alone self.old.limit self.old.replica event.now self.old.site) }
        ensures memory { result ≡ Err (WorldRefusal.Store Memory) →
            HasRoomAlone self.old.limit self.old.site.content event.now }
        ensures rest { self.new ≡ record self.old { site = self.new.site } }
    {
        match event {
            Event::Edit { lo, hi, put, .. } => {
                drop(self.document.splice(*lo, *hi, put)?);
                Ok(())
            }
            Event::Revert { gone, back, .. } => {
                drop(self.document.revert(gone, back)?);
                Ok(())
            }
            Event::Save { .. } => {
                self.saved = self.document.store().copy()?;
                Ok(())
            }
            Event::SaveOne { place, .. } => self.save_one(*place),
            Event::Restart { .. } => {
                self.document = Doc::new(alloc, self.saved.copy()?, self.document.replica())?;
                Ok(())
            }
            Event::Deliver { .. } | Event::DeliverList { .. } => Ok(()),
        }
    }

    /// One of the operations that are held is saved.
    fn save_one(&mut self, place: usize) -> Result<(), WorldRefusal>
        ensures happens { Happens result self.old.site self.new.site
            (saved_one self.old.limit place self.old.site) }
        ensures rest { self.new ≡ record self.old { site = self.new.site } }
    {
        let ops = self.document.store().ops()?;
        let Some(op) = ops.as_slice().get(place) else {
            return Err(WorldRefusal::NoOperation);
        };
        let _taken = self.saved.apply(*op)?;
        Ok(())
    }

    /// One operation is taken.
    pub(crate) fn take(&mut self, op: Op) -> Result<(), WorldRefusal>
        ensures happens { Happens result self.old.site self.new.site
            (delivered self.old.limit op self.old.site) }
        ensures rest { self.new ≡ record self.old { site = self.new.site } }
    {
        let _taken = self.document.apply(op)?;
        Ok(())
    }

    /// All operations of a list are taken, or none.
    pub(crate) fn take_list(&mut self, ops: &[Op]) -> Result<(), WorldRefusal>
        ensures happens { Happens result self.old.site self.new.site
            (list_delivered self.old.limit ops.now self.old.site) }
        ensures rest { self.new ≡ record self.old { site = self.new.site } }
    {
        Ok(self.document.apply_all(ops)?)
    }

    /// The characters that are shown.
    pub(crate) fn text(&self) -> Result<Vec<char>, OutOfMemory>
        ensures ok { IfOk result (λ chars. chars.items ≡ text self.now.site.content) }
    {
        self.document.text()
    }

    /// The operations that are saved.
    pub(crate) fn saved_ops(&self) -> Result<Vec<Op>, OutOfMemory>
        ensures ok { IfOk result (λ ops. ops.items ≡ operations self.now.site.saved) }
    {
        self.saved.ops()
    }

    /// The one at a place of them.
    pub(crate) fn saved_operation(&self, place: usize) -> Result<Op, WorldRefusal>
        ensures { let op = slice_get (operations self.now.site.saved) place in MatchResult result
            (λ o. op ≡ Some o)
            (λ e. (e ≡ WorldRefusal.Store Memory)
            ⊎ ((e ≡ WorldRefusal.NoOperation) × (op ≡ None))) }
    {
        let ops = self.saved_ops()?;
        match ops.as_slice().get(place) {
            Some(op) => Ok(*op),
            None => Err(WorldRefusal::NoOperation),
        }
    }

    /// Those at the places `lo` to `hi - 1` of them.
    pub(crate) fn saved_list(
        &self,
        alloc: Global,
        lo: usize,
        hi: usize,
    ) -> Result<Vec<Op>, WorldRefusal>
        ensures exact { let list = saved_list self.now.site lo hi in MatchResult result
            (λ ops. list ≡ Ok ops.items)
            (λ e. (e ≡ WorldRefusal.Store Memory) ⊎ (list ≡ Err e)) }
        ensures memory { result ≡ Err (WorldRefusal.Store Memory) → lo ≤ hi }
    {
        if lo > hi {
            return Err(WorldRefusal::NoOperation);
        }
        let all = self.saved_ops()?;
        if hi > all.as_slice().len() {
            return Err(WorldRefusal::NoOperation);
        }
        match Vec::from_slice(alloc, &all[lo..hi]) {
            Ok(list) => Ok(list),
            Err(refused) => Err(WorldRefusal::Store(Refusal::from(refused))),
        }
    }
}
