//! What of the own operations is still to be saved and told.
ghost use Rattle.std.specs.Prelude.{◌≡◌, ◌++◌, OnOk, OnErr};
ghost use Rattle.mg_live.specs.Telling as spec;

use rga_ops::{Op, OutOfMemory};
use std::alloc::{AllocError, Global};
use std::marker::Model;

/// What was made in the live buffer and is not told yet, and what is to be done at the end of the
/// block.
#[derive(Drop)]
pub(crate) struct Telling {
    pub(crate) untold: Vec<Op>,
    /// In this block something was made, in whatever buffer.
    pub(crate) made: bool,
    /// In this block nobody was said to type.
    pub(crate) resting: bool,
    /// The live buffer took operations of others since its load.
    pub(crate) took: bool,
}

impl Model for Telling {
    ghost use Rattle.mg_live.specs.Telling as spec;

    ghost Value = { spec.Telling };

    ghost view = { λ t. record {
      untold = t.untold.items;
      made = t.made;
      resting = t.resting;
      took = t.took;
    } };
}

impl Telling {
    /// There is nothing to tell. Takes no memory.
    pub(crate) fn new(alloc: Global) -> Telling
        ensures { result ≡ spec.nothing_to_tell }
    {
        Telling {
            untold: Vec::new(alloc),
            made: false,
            resting: false,
            took: false,
        }
    }

    /// More operations are to be told. Out of memory alone, and nothing changes then.
    pub(crate) fn add(&mut self, ops: &[Op]) -> Result<(), OutOfMemory>
        ensures added { OnOk result (self.new ≡ record self.old {
          untold = self.old.untold ++ ops.now;
        }) }
        ensures same { OnErr result (self.new ≡ self.old) }
    {
        self.untold.extend_from_slice(ops)?;
        Ok(())
    }
}
