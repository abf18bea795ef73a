//! Files that are read by their names.
ghost use Rattle.std.specs.Prelude.{◌≡◌, ◌⊎◌, ℕ, List, Option, IfOk, IfErr, IfSome};
ghost use Rattle.mgr_show.specs.Sources.{failures_after};
ghost use Rattle.mgr_show.specs.Memory.{ShowMemory};

use crate::fault::ShowFault;
use std::alloc::Global;

/// Files by their names, which are read whoever has them open. They may tell what stands under a
/// name.
pub trait Sources {
    /// What stands under a name, where it is told.
    ghost contents: { Self → List ℕ → Option (List ℕ) };

    /// How many reads failed.
    ghost failures: { Self → ℕ };

    /// All bytes of the file of a name. `Read` where there is none and where it can't be read, and
    /// `Memory`.
    fn read(&mut self, alloc: Global, name: &str) -> Result<Vec<u8>, ShowFault>
        ensures bytes { IfOk result (λ read. IfSome (contents self.old name.now)
            (λ bytes. read.items ≡ bytes)) }
        ensures fault { IfErr result (λ e. (e ≡ ShowFault.Read) ⊎ (e ≡ ShowMemory)) }
        ensures same { (other : List ℕ) → contents self.new other ≡ contents self.old other }
        ensures device { failures self.new ≡ failures_after result (failures self.old) };
}
