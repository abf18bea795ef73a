//! The characters of a text, listed beside its store.
ghost use Rattle.std.specs.Prelude.{◌≡◌, ◌≤◌, true, false, length, IfErr, OnOk, OnErr};
ghost use Rattle.rga_ops.specs.Order.{text};
ghost use Rattle.rga_ops.specs.Splice.{spliced, text_after, are_falling, new_characters};
ghost use Rattle.rga_doc.specs.Listing.{IsListing};

use crate::Characters;
use rga_ops::{OutOfMemory, Splice};
use rga_store::TextStore;
use std::alloc::Global;

/// The characters that a store shows, in order, while they are listed.
#[derive(Drop)]
pub(crate) struct Listing {
    pub(crate) characters: Characters,
    pub(crate) listed: bool,
    /// How many operations of other replicas were made in it since it was asked for.
    pub(crate) followed: usize,
}

impl Listing {
    /// Nothing listed.
    pub(crate) fn new(alloc: Global) -> Listing
        ensures { result.listed ≡ false }
    {
        Listing {
            characters: Characters::of(Vec::new(alloc)),
            listed: false,
            followed: 0,
        }
    }

    /// Lists what a store shows, where it is not listed. `Memory` alone; then all stays.
    pub(crate) fn list<S: TextStore>(&mut self, alloc: Global, store: &S) -> Result<(), OutOfMemory>
        requires { IsListing (S.content store.now) self.old.listed self.old.characters.items }
        ensures listed { OnOk result (self.new.listed ≡ true) }
        ensures lists { OnOk result (self.new.characters.items ≡ text (S.content store.now)) }
        ensures same { OnErr result (self.new ≡ self.old) }
        ensures kept { self.old.listed ≡ true → result ≡ Ok tt }
    {
        if self.listed {
            self.followed = 0;
            return Ok(());
        }
        let mut characters = store.text(alloc)?;
        // A store may have made room for what is deleted too.
        characters.shrink_to_fit();
        self.characters = Characters::of(characters);
        self.listed = true;
        self.followed = 0;
        Ok(())
    }

    /// Gives up what is listed, and its memory.
    pub(crate) fn forget(&mut self, alloc: Global)
        ensures { self.new.listed ≡ false }
    {
        *self = Listing::new(alloc);
    }

    /// Makes room for so many more, and gives up what is listed where that is refused.
    pub(crate) fn make_room(&mut self, alloc: Global, more: usize)
        ensures listed { self.new.listed ≡ true → self.old.listed ≡ true }
        ensures characters { self.new.listed ≡ true
            → self.new.characters.items ≡ self.old.characters.items }
        ensures room { self.new.listed ≡ true → more ≤ self.new.characters.room }
    {
        if self.characters.make_room(more).is_err() {
            self.forget(alloc);
        }
    }

    /// Replaces the characters `lo` to `hi - 1` by others, where there is memory.
    pub(crate) fn replace(&mut self, lo: usize, hi: usize, put: &[char]) -> bool
        requires ordered { lo ≤ hi }
        requires in_list { hi ≤ length self.old.characters.items }
        ensures { result ≡ true → self.new.characters.items
            ≡ spliced self.old.characters.items lo hi put.now }
    {
        if self.characters.make_room(put.len()).is_err() {
            return false;
        }
        self.characters.replace(lo, hi, put);
        self.characters.give_back();
        true
    }

    /// Replaces the characters `lo` to `hi - 1` by others, if any are listed.
    pub(crate) fn splice(&mut self, lo: usize, hi: usize, put: &[char])
        requires ordered { lo ≤ hi }
        requires in_text { self.old.listed ≡ true → hi ≤ length self.old.characters.items }
        requires room { self.old.listed ≡ true → length put.now ≤ self.old.characters.room }
        ensures characters { self.new.listed ≡ true → self.new.characters.items
            ≡ spliced self.old.characters.items lo hi put.now }
        ensures listed { self.new.listed ≡ self.old.listed }
    {
        if self.listed {
            self.characters.replace(lo, hi, put);
            self.characters.give_back();
        }
    }

    /// The same by each splice in turn. There is room for all.
    pub(crate) fn replace_all(&mut self, splices: &[Splice])
        requires falling { are_falling (length self.old.characters.items) splices.now ≡ true }
        requires room { new_characters splices.now ≤ self.old.characters.room }
        ensures characters { self.new.characters.items
            ≡ text_after self.old.characters.items splices.now }
        ensures listed { self.new.listed ≡ self.old.listed }
    {
        for splice in splices {
            let put = splice.put.as_slice();
            self.characters.replace(splice.lo, splice.hi, put);
        }
        self.characters.give_back();
    }
}
