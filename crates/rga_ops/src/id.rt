//! Identifiers of elements.
ghost use Rattle.std.specs.Prelude.{◌≡◌, ◌||◌, true, Ok, Err, if◌then◌else◌};
ghost use Rattle.rga_ops.specs.Identifier.{is_root, is_in_range, identifier};

use crate::refusal::Refusal;
use std::marker::Model;

/// The identifier of an element: a counter from 1 to 9007199254740991 and a replica from 1 to
/// 65535; or the root, which stands before all text and is the identifier of no element.
///
/// Identifiers are ordered by counter, and then by replica: the timestamp order of Attiya and
/// others 2016. The greatest counter is the greatest whole number that each JSON reader keeps
/// exactly (RFC 8259, section 6).
#[derive(Clone, Copy, Debug, Default, PartialEq, Eq, PartialOrd, Ord, Hash)]
pub struct Id {
    counter: u64,
    replica: u16,
}

impl Model for Id {
    ghost use Rattle.std.specs.Prelude.{◌≡◌, ◌||◌, IsTrue};
    ghost use Rattle.rga_ops.specs.Identifier.{Identifier, identifier, identifier_code, is_root, is_in_range};

    ghost Value = { Identifier };

    ghost coded = { identifier_code };

    ghost view = { λ a. record { counter = a.counter; replica = a.replica } };

    ghost invariant = { λ a. IsTrue (is_root (identifier a.counter a.replica)
        || is_in_range a.counter a.replica) };

    ghost inverse = { λ d. record { counter = d.counter; replica = d.replica } };
}

impl Id {
    /// The greatest counter.
    pub const MAX_COUNTER: u64 = 9007199254740991;

    /// What stands before all text.
    pub const ROOT: Id = Id {
        counter: 0,
        replica: 0,
    };

    /// The identifier of an element. `BadId` outside the ranges, at (0, 0) too.
    pub fn new(counter: u64, replica: u16) -> Result<Id, Refusal>
        ensures { result ≡ (if is_in_range counter replica
            then Ok (identifier counter replica) else Err Refusal.BadId) }
    {
        if counter >= 1 && counter <= Id::MAX_COUNTER && replica >= 1 {
            Ok(Id { counter, replica })
        } else {
            Err(Refusal::BadId)
        }
    }

    /// The counter; 0 at the root.
    pub fn counter(&self) -> u64
        ensures value { result ≡ self.now.counter }
        ensures kept { is_root self.now || is_in_range self.now.counter self.now.replica ≡ true }
    {
        self.counter
    }

    /// The replica; 0 at the root.
    pub fn replica(&self) -> u16
        ensures { result ≡ self.now.replica }
    {
        self.replica
    }
}
