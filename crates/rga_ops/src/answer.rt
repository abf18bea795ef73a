//! The answer to an operation, by what a store finds.
ghost use Rattle.std.specs.Prelude.{◌≡◌, Ok, Err, if◌then◌else◌};
ghost use Rattle.rga_ops.specs.Answer.{answer_from, has_room};
ghost use Rattle.rga_ops.specs.Found.{facts_of};

use crate::id::Id;
use crate::op::Op;
use crate::refusal::{Refusal, Taken};

/// What a store knows of the identifier of an operation, and of its own room.
#[derive(Clone, Copy)]
pub struct Found {
    /// The parent and the character of its insertion.
    pub element: Option<(Id, char)>,
    /// Whether it is deleted.
    pub deleted: bool,
    /// How many identifiers the store knows.
    pub known: usize,
    /// How many it may know.
    pub limit: usize,
}

/// What a store answers that found this of the operation's identifier, want of memory aside.
///
/// Refusals, in this order: `BadId`, `BadOrder`, `Conflict`, `Full`. Takes no memory.
pub fn answer_to(op: Op, found: Found) -> Result<Taken, Refusal>
    ensures { result ≡ answer_from op (facts_of found) }
{
    op.check()?;
    match op {
        Op::Insert { id, parent, ch } => match found.element {
            Some(element) if element == (parent, ch) => Ok(Taken::Known),
            Some(_) => Err(Refusal::Conflict(id)),
            None => room_for_new(found),
        },
        Op::Delete { .. } if found.deleted => Ok(Taken::Known),
        Op::Delete { .. } => room_for_new(found),
    }
}

/// Whether the store has room for a new operation. An identifier that it knows needs none.
fn room_for_new(found: Found) -> Result<Taken, Refusal>
    ensures { result ≡ (if has_room (facts_of found) then Ok Taken.New else Err Refusal.Full) }
{
    if found.element.is_some() || found.deleted || found.known != found.limit {
        Ok(Taken::New)
    } else {
        Err(Refusal::Full)
    }
}
