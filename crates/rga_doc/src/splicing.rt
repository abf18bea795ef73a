//! The characters of a text after several splices at once, listed anew: so what stays is copied
//! once, however many splices there are.
ghost use Rattle.std.specs.Prelude.{◌≡◌, ◌≤◌, ◌++◌, true, take, drop, length, IfOk, IfErr, OnOk};
ghost use Rattle.rga_ops.specs.Splice.{text_after, are_falling};

use crate::characters::Characters;
use rga_ops::{OutOfMemory, Splice};
use std::alloc::Global;

impl Characters {
    /// The characters after each splice in turn. There is room for `more` new ones. `Memory` alone.
    pub fn spliced(
        &self,
        alloc: Global,
        splices: &[Splice],
        more: usize,
    ) -> Result<Characters, OutOfMemory>
        requires { are_falling (length self.now.items) splices.now ≡ true }
        ensures ok { IfOk result
            (λ l. l.items ≡ text_after self.now.items splices.now) }
    {
        let old = self.as_slice();
        let room = Vec::with_capacity(alloc, old.len().saturating_add(more))?;
        let mut next = Characters::of(room);
        let mut end = 0;
        let mut left = splices.len();
        while left > 0 {
            left -= 1;
            let splice = &splices[left];
            next.extend_part(old, end, splice.lo)?;
            next.extend(splice.put.as_slice())?;
            end = splice.hi;
        }
        next.extend_part(old, end, old.len())?;
        Ok(next)
    }

    /// Adds what stands in a slice from one place to another. `Memory` alone.
    fn extend_part(&mut self, characters: &[char], lo: usize, hi: usize) -> Result<(), OutOfMemory>
        requires ordered { lo ≤ hi }
        requires within { hi ≤ length characters.now }
        ensures items { OnOk result
            (self.new.items ≡ self.old.items ++ drop lo (take hi characters.now)) }
    {
        self.extend(&characters[lo..hi])
    }
}
