//! The plain store that each store is compared with: the operations in a list, in the order in which
//! they were taken, searched from the front, with the root path of each element written out.
use rga_ops::{Id, Op, Refusal, Taken};
use std::alloc::Global;
use std::cmp::Reverse;

/// The identifiers from below the root down to an element, so that paths sort as elements stand:
/// the beginning of a path first, else the path with the larger identifier at the first difference.
type RootPath = Vec<Reverse<Id>>;

/// What a store shows.
#[derive(Drop)]
pub struct Shown {
    /// The complete elements.
    pub order: Vec<Id>,
    /// The place of each of them, in turn.
    pub places: Vec<Option<usize>>,
    pub visible: Vec<Id>,
    pub text: Vec<char>,
}

impl Shown {
    fn new(alloc: Global) -> Shown {
        Shown {
            order: Vec::new(alloc),
            places: Vec::new(alloc),
            visible: Vec::new(alloc),
            text: Vec::new(alloc),
        }
    }

    /// Adds an element, and its character where it is visible.
    fn push(&mut self, id: Id, ch: Option<char>) -> Result<(), Refusal> {
        if let Some(ch) = ch {
            self.visible.push(id)?;
            self.text.push(ch)?;
        }
        self.places.push(Some(self.visible.len()))?;
        Ok(self.order.push(id)?)
    }
}

#[derive(Drop)]
pub struct ListStore {
    alloc: Global,
    ops: Vec<Op>,
    known: Vec<Id>,
    limit: usize,
}

impl ListStore {
    pub fn new(alloc: Global, limit: usize) -> ListStore {
        ListStore {
            alloc,
            ops: Vec::new(alloc),
            known: Vec::new(alloc),
            limit,
        }
    }

    pub fn apply(&mut self, op: Op) -> Result<Taken, Refusal> {
        op.check()?;
        if self.ops.as_slice().contains(&op) {
            return Ok(Taken::Known);
        }
        if matches!(&op, Op::Insert { .. }) && self.element(op.id()).is_some() {
            return Err(Refusal::Conflict(op.id()));
        }
        self.know(op.id())?;
        self.ops.push(op)?;
        Ok(Taken::New)
    }

    /// Knows the identifier from now on, if the limit allows.
    fn know(&mut self, id: Id) -> Result<(), Refusal> {
        if self.known.as_slice().contains(&id) {
            return Ok(());
        }
        if self.known() >= self.limit {
            return Err(Refusal::Full);
        }
        Ok(self.known.push(id)?)
    }

    pub fn known(&self) -> usize {
        self.known.as_slice().len()
    }

    pub fn is_deleted(&self, id: Id) -> bool {
        self.ops.as_slice().contains(&Op::Delete { id })
    }

    /// The parent and the character of an element.
    fn element(&self, element: Id) -> Option<(Id, char)> {
        for op in &self.ops {
            match op {
                Op::Insert { id, parent, ch } if *id == element => return Some((*parent, *ch)),
                _ => {}
            }
        }
        None
    }

    /// The character of an element that is not deleted.
    fn visible_character(&self, id: Id) -> Option<char> {
        match self.element(id) {
            Some((_, ch)) if !self.is_deleted(id) => Some(ch),
            _ => None,
        }
    }

    /// The complete elements, by their root paths, and what of them is visible.
    pub fn shown(&self) -> Result<Shown, Refusal> {
        let mut shown = Shown::new(self.alloc);
        for path in &self.root_paths()? {
            if let Some(Reverse(id)) = path.as_slice().last() {
                shown.push(*id, self.visible_character(*id))?;
            }
        }
        Ok(shown)
    }

    /// The root paths of all complete elements, sorted.
    fn root_paths(&self) -> Result<Vec<RootPath>, Refusal> {
        let mut paths = Vec::new(self.alloc);
        for op in &self.ops {
            if let Op::Insert { id, .. } = op {
                self.push_root_path(&mut paths, *id)?;
            }
        }
        paths.sort()?;
        Ok(paths)
    }

    /// Adds the root path of an element, if it is complete.
    fn push_root_path(&self, paths: &mut Vec<RootPath>, id: Id) -> Result<(), Refusal> {
        let mut path = Vec::new(self.alloc);
        if self.climb(&mut path, id)? == Id::ROOT {
            path.as_mut_slice().reverse();
            paths.push(path)?;
        }
        Ok(())
    }

    /// Adds an element and those above it to a path. The parent of the last, which is the root if the
    /// element is complete.
    fn climb(&self, path: &mut RootPath, id: Id) -> Result<Id, Refusal> {
        let mut at = id;
        for _ in 0..self.known() {
            if let Some((parent, _)) = self.element(at) {
                path.push(Reverse(at))?;
                at = parent;
            }
        }
        Ok(at)
    }
}
