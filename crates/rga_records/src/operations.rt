//! A content as a list of operations.
use rga_ops::{Op, OutOfMemory};
use rga_pages::Page;
use rga_store::Listener;
use std::marker::Model;

/// The operations that were told, in turn.
#[derive(Drop)]
pub(crate) struct Told {
    pub(crate) ops: Vec<Op>,
}

impl Model for Told {
    ghost use Rattle.std.specs.Prelude.{List};
    ghost use Rattle.rga_ops.specs.declared.op.Op.{Op as Operation};

    ghost Value = { List Operation };

    ghost view = { λ told. told.ops.items };
}

impl Listener for Told {
    ghost use Rattle.std.specs.Prelude.{◌≡◌, ◌++◌};
    ghost use Rattle.rga_records.specs.Listing.{lists_nothing, lists_on};

    ghost hears = { λ s ops t. t ≡ s ++ ops };

    ghost hears_nothing = { λ s. lists_nothing s };

    ghost hears_on = { λ s t u xs ys a b. lists_on s xs ys a b };

    fn hear(&mut self, op: &Op) -> Result<(), OutOfMemory> {
        self.ops.push(*op)?;
        Ok(())
    }
}

/// How many records are marked.
pub(crate) fn count_marked(pages: &Vec<Page>) -> usize {
    let mut count = 0usize;
    for page in pages {
        for (_, record) in page.entries() {
            if record.deleted {
                count = count.saturating_add(1);
            }
        }
    }
    count
}
