//! Theorems about compacted logs. Each function does nothing: its contract is the theorem.
ghost use Rattle.std.specs.Prelude.{◌≡◌, ℕ, List, Bool, Option, Some};
ghost use Rattle.mgr_port.specs.Disk.{DiskStep, Place, MayBeMade, IsUntouched, MayBeFound, behind_steps};
ghost use Rattle.mgr_show.specs.Compacted.{KeepsContent, compacted};
ghost use Rattle.mgr_show.specs.Shown.{log_content};

/// If the machine stops behind any beginning of the steps of `compact_note`, or behind those that it
/// gave up, a log stands under the name, and it has the content of the old one.
pub fn a_note_keeps_its_content_whenever_the_machine_stops()
    ensures { (dels : Bool) (bytes : List ℕ) (found : Option (List ℕ)) (p : Place)
        (made : List DiskStep) → KeepsContent dels bytes → IsUntouched p
        → MayBeMade (compacted dels bytes) made
        → MayBeFound (Some bytes) (behind_steps p made) found
        → (log : List ℕ) × (found ≡ Some log) × (log_content log ≡ log_content bytes) }
{}
