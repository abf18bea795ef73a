//! Operations on a text.
ghost use Rattle.std.specs.Prelude.{◌≡◌};
ghost use Rattle.rga_ops.specs.Operation.{checked, id_of};

use crate::id::Id;
use crate::refusal::Refusal;

/// One change of the text, made at one replica and taken by all.
#[derive(Clone, Copy, Debug, PartialEq, Eq, Hash)]
pub enum Op {
    /// A new element with its character. It stands behind its parent, an element or the root.
    Insert { id: Id, parent: Id, ch: char },
    /// An element is shown no more. It stays in the tree, and so do its children.
    Delete { id: Id },
}

impl Op {
    /// The identifier of the element that is inserted or deleted.
    pub fn id(&self) -> Id
        ensures { result ≡ id_of self.now }
    {
        match self {
            Op::Insert { id, .. } | Op::Delete { id } => *id,
        }
    }

    /// Whether the operation is well-formed. `BadId` where its identifier is the root, and then
    /// `BadOrder` where an insertion's counter is not above its parent's.
    pub fn check(&self) -> Result<(), Refusal>
        ensures { result ≡ checked self.now }
    {
        if self.id() == Id::ROOT {
            return Err(Refusal::BadId);
        }
        match self {
            Op::Insert { id, parent, .. } if id.counter() <= parent.counter() => {
                Err(Refusal::BadOrder)
            }
            _ => Ok(()),
        }
    }
}
