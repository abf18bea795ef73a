//! What is listed, read anew where a revert has changed the text.
ghost use Rattle.std.specs.Prelude.{◌≡◌, ◌≤◌, ◌+◌, nat_le, true, take, drop, None, IfSome, Option};
ghost use Rattle.rga_ops.specs.Order.{text};
ghost use Rattle.rga_doc.specs.Relisting.{AgreeOutside, AllBetween, WillAgreeOutside};

use crate::listing::Listing;
use rga_ops::Op;
use rga_store::TextStore;
use std::alloc::Global;

/// Of more elements the places are not looked for one by one: then all is listed anew sooner.
const MOST_FOLLOWED: usize = 100;

/// So many characters are read anew at most: to list all costs less than to look for so many.
const MOST_REREAD: usize = 4096;

/// How much of a text stays at least, while it changes between.
#[derive(Clone, Copy)]
pub(crate) struct Margins {
    /// How many characters at the front.
    front: usize,
    /// How many characters at the back.
    back: usize,
}

impl Margins {
    /// Whether a text of so many characters has both.
    fn are_in(self, count: usize) -> bool
        ensures { result ≡ nat_le (self.front + self.back) count }
    {
        self.back <= count && self.front <= count - self.back
    }

    /// The margins made so narrow that the elements of operations stand between them, in the text
    /// that a store shows. None where one has no place in it.
    fn round<S: TextStore>(self, store: &S, ops: &[Op]) -> Option<Margins>
        ensures between { IfSome result
            (λ m. AllBetween (S.content store.now) m.front m.back ops.now) }
        ensures front { IfSome result (λ m. m.front ≤ self.front) }
        ensures back { IfSome result (λ m. m.back ≤ self.back) }
    {
        let count = store.visible_len();
        let mut margins = self;
        for op in ops {
            let place = store.place_of(op.id())?;
            if place == 0 || place > count {
                return None;
            }
            margins.front = margins.front.min(place - 1);
            margins.back = margins.back.min(count - place);
        }
        Some(margins)
    }
}

impl Listing {
    /// The margins round what deletions take out of a text that is listed, before the store takes
    /// them with so many insertions. None where all is better listed anew.
    pub(crate) fn margins<S: TextStore>(
        &self,
        store: &S,
        deletions: &[Op],
        insertions: usize,
    ) -> Option<Margins>
        ensures listed { IfSome result (λ m. self.now.listed ≡ true) }
        ensures between { IfSome result
            (λ m. AllBetween (S.content store.now) m.front m.back deletions.now) }
    {
        if !self.listed || deletions.len() > MOST_FOLLOWED || insertions > MOST_FOLLOWED {
            return None;
        }
        let widest = Margins {
            front: usize::MAX,
            back: usize::MAX,
        };
        widest.round(store, deletions)
    }

    /// Reads anew what operations of a revert have changed that the store has taken, or gives up
    /// what is listed. The margins are what `margins` answered. Answers how many characters at the
    /// front are known to have stayed.
    pub(crate) fn follow<S: TextStore>(
        &mut self,
        alloc: Global,
        store: &S,
        margins: Option<Margins>,
        insertions: &[Op],
    ) -> usize
        requires { IfSome margins (λ m. WillAgreeOutside (S.content store.now)
            m.front m.back insertions.now self.old.characters.items) }
        ensures listed { self.new.listed ≡ true →
            self.new.characters.items ≡ text (S.content store.now) }
        ensures front { take result self.old.characters.items
            ≡ take result (text (S.content store.now)) }
        ensures unknown { margins ≡ None → result ≡ 0 }
    {
        self.listed = false;
        let Some(before) = margins else {
            return 0;
        };
        let Some(after) = before.round(store, insertions) else {
            return 0;
        };
        self.listed = self.reread(alloc, store, after);
        after.front
    }

    /// Reads anew what stands between the margins. Whether that could be done; it is not where
    /// there is much, nor where memory wants.
    fn reread<S: TextStore>(&mut self, alloc: Global, store: &S, margins: Margins) -> bool
        requires { AgreeOutside margins.front margins.back self.old.characters.items
            (text (S.content store.now)) }
        ensures { result ≡ true → self.new.characters.items ≡ text (S.content store.now) }
    {
        let (old, new) = (self.characters.len(), store.visible_len());
        if !margins.are_in(old) || !margins.are_in(new) {
            return false;
        }
        let (front, end) = (margins.front, new - margins.back);
        if end - front > MOST_REREAD {
            return false;
        }
        let Some(between) = characters_between(alloc, store, front, end) else {
            return false;
        };
        self.followed = 0;
        self.replace(front, old - margins.back, &between)
    }
}

/// The characters of a text from one place to another. None for want of memory alone.
fn characters_between<S: TextStore>(
    alloc: Global,
    store: &S,
    lo: usize,
    hi: usize,
) -> Option<Vec<char>>
    ensures { IfSome result
        (λ characters. characters.items ≡ drop lo (take hi (text (S.content store.now)))) }
{
    let elements = store.elements(alloc, lo, hi).ok()?;
    let mut characters = Vec::new(alloc);
    for id in &elements {
        let (_, ch) = store.get(*id)?;
        characters.push(ch).ok()?;
    }
    Some(characters)
}
