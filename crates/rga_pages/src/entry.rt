//! What is known of an identifier.
ghost use Rattle.std.specs.Prelude.{◌≡◌, Some, None, true, false};
ghost use Rattle.std.specs.Option.{option_map};

use rga_ops::Id;
use std::marker::Model;

/// What is known of an identifier. A record may come before its element, for a deletion that came
/// early.
#[derive(Clone, Copy)]
pub struct Record {
    // An `Id` in place of these two would make the record a third larger.
    parent_counter: u64,
    /// The character, once the identifier is inserted.
    pub ch: Option<char>,
    /// The name of the block in which the element may stand.
    pub block: u32,
    parent_replica: u16,
    /// The index at which it may stand there.
    pub index: u8,
    pub deleted: bool,
}

impl Model for Record {
    ghost use Rattle.std.specs.Prelude.{◌||◌, IsTrue};
    ghost use Rattle.rga_ops.specs.Identifier.{identifier, is_root, is_in_range};
    ghost use Rattle.rga_pages.specs.Known.{Known};

    ghost Value = { Known };

    ghost view = { λ a. record {
      parent = identifier a.parent_counter a.parent_replica;
      ch = a.ch;
      block = a.block;
      index = a.index;
      deleted = a.deleted;
    } };

    ghost invariant = { λ a. IsTrue (is_root (identifier a.parent_counter a.parent_replica)
        || is_in_range a.parent_counter a.parent_replica) };

    ghost inverse = { λ d. record {
      parent_counter = d.parent.counter;
      ch = d.ch;
      block = d.block;
      parent_replica = d.parent.replica;
      index = d.index;
      deleted = d.deleted;
    } };
}

impl Record {
    /// A record that means nothing yet.
    pub fn new() -> Record
        ensures element { result.ch ≡ None }
        ensures unmarked { result.deleted ≡ false }
    {
        Record {
            parent_counter: 0,
            ch: None,
            block: 0,
            parent_replica: 0,
            index: 0,
            deleted: false,
        }
    }

    /// The record of an element, which may stand in the block of that name, at that index.
    #[inline(always)]
    pub fn inserted(parent: Id, ch: char, block: u32, index: u8, deleted: bool) -> Record
        ensures { result ≡ record {
          parent = parent;
          ch = Some ch;
          block = block;
          index = index;
          deleted = deleted;
        } }
    {
        Record {
            parent_counter: parent.counter(),
            ch: Some(ch),
            block,
            parent_replica: parent.replica(),
            index,
            deleted,
        }
    }

    /// The parent, once the identifier is inserted.
    #[inline(always)]
    pub fn parent(&self) -> Id
        ensures { result ≡ self.now.parent }
    {
        match Id::new(self.parent_counter, self.parent_replica) {
            Ok(id) => id,
            Err(_) => Id::ROOT,
        }
    }

    /// The parent and the character of an identifier that is inserted.
    pub fn element(&self) -> Option<(Id, char)>
        ensures { result ≡ option_map (λ ch. (self.now.parent, ch)) self.now.ch }
    {
        match self.ch {
            Some(ch) => Some((self.parent(), ch)),
            None => None,
        }
    }

    /// The same record, which says that the element may stand elsewhere.
    pub(crate) fn moved(&self, block: u32, index: u8) -> Record
        ensures { result ≡ record self.now { block = block; index = index } }
    {
        Record {
            block,
            index,
            ..*self
        }
    }

    /// The same record, with a mark.
    pub fn marked(&self) -> Record
        ensures { result ≡ record self.now { deleted = true } }
    {
        self.with_mark(true)
    }

    /// The same record, without a mark.
    pub fn unmarked(&self) -> Record
        ensures { result ≡ record self.now { deleted = false } }
    {
        self.with_mark(false)
    }

    /// The same record, marked or not.
    fn with_mark(&self, deleted: bool) -> Record
        ensures { result ≡ record self.now { deleted = deleted } }
    {
        Record { deleted, ..*self }
    }
}
