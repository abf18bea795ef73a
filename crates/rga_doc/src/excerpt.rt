//! The visible elements that an edit names.
ghost use Rattle.std.specs.Prelude.{◌≡◌, ◌≤◌, length, take, drop, IfOk, IfErr};
ghost use Rattle.rga_ops.specs.Places.{visible};
ghost use Rattle.rga_doc.specs.Excerpt.{excerpt};
ghost use Rattle.rga_doc.specs.LocalEdit.{left_of};

use rga_ops::{Id, OutOfMemory};
use rga_store::TextStore;
use std::alloc::Global;
use std::marker::Model;

/// The visible elements of a part of a text. In specifications it is a list from the front of the
/// text on, in which the root stands for each element before the part.
#[derive(Drop)]
pub(crate) struct Excerpt {
    /// How many elements stand before the part.
    start: usize,
    elements: Vec<Id>,
}

impl Model for Excerpt {
    ghost use Rattle.std.specs.Prelude.{◌++◌, replicate};
    ghost use Rattle.rga_ops.specs.Identifier.{root};
    ghost use Rattle.rga_doc.specs.Excerpt.{Excerpted};

    ghost Value = { Excerpted };

    ghost view = { λ e. record {
      start = e.start;
      items = replicate e.start root ++ e.elements.items;
    } };
}

impl Excerpt {
    /// The elements from the one before a place up to another place. `Memory` alone.
    pub(crate) fn of<S: TextStore>(
        alloc: Global,
        store: &S,
        lo: usize,
        hi: usize,
    ) -> Result<Excerpt, OutOfMemory>
        ensures ok { IfOk result (λ e. e ≡ excerpt (visible (S.content store.now)) lo hi) }
    {
        let start = lo.saturating_sub(1);
        let elements = store.elements(alloc, start, hi)?;
        Ok(Excerpt { start, elements })
    }

    /// The elements from one place to another.
    pub(crate) fn between(&self, lo: usize, hi: usize) -> &[Id]
        requires begin { self.now.start ≤ lo }
        requires ordered { lo ≤ hi }
        requires within { hi ≤ length self.now.items }
        ensures { result.now ≡ drop lo (take hi self.now.items) }
    {
        &self.elements[lo - self.start..hi - self.start]
    }

    /// The element that a place is behind: the root at the front.
    pub(crate) fn left_of(&self, k: usize) -> Id
        requires { k ≤ length self.now.items }
        ensures { result ≡ left_of self.now.items k }
    {
        if k <= self.start {
            return Id::ROOT;
        }
        self.elements[k - self.start - 1]
    }
}
