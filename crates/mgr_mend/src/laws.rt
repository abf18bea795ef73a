//! Theorems about mended logs. Each function does nothing: its contract is the theorem.
ghost use Rattle.std.specs.Prelude.{◌≡◌, ◌↔◌, ◌⊎◌, ℕ, List, [], Option, Some, Contains};
ghost use Rattle.rga_ops.specs.Content.{IsAgreed, HasSameOperations, content_of};
ghost use Rattle.rga_ops.specs.declared.op.Op.{Op};
ghost use Rattle.rga_lines.specs.Log.{log_operations, HasOnlyOperations};
ghost use Rattle.rga_exchange.specs.Sending.{AreWritable};
ghost use Rattle.mgr_port.specs.Disk.{DiskStep, Place, MayBeMade, IsUntouched, MayBeFound, behind_steps};
ghost use Rattle.mgr_mend.specs.Mending.{whole_operations, IsBeaten, unbeaten, mended, refused_of};
ghost use Rattle.mgr_mend.specs.Fitting.{fitted};
ghost use Rattle.mgr_mend.specs.Mending.{left_out_of, nothing_left_out, StaysWhole, IsLeftOut};

mod compaction;
mod fitting;
mod merging;

pub use compaction::a_note_keeps_its_content_whenever_the_machine_stops;
pub use fitting::{a_mended_log_with_room_stays, a_mended_note_is_read};
pub use merging::a_merge_holds_the_join;

/// A log that has only operations, no two of which are insertions of one identifier that differ,
/// stays as it is, and nothing of it is left out.
pub fn an_accepted_log_stays()
    ensures log { (bytes : List ℕ) → HasOnlyOperations bytes → IsAgreed (log_operations bytes)
        → mended bytes ≡ bytes }
    ensures refused { (bytes : List ℕ) → HasOnlyOperations bytes → IsAgreed (log_operations bytes)
        → refused_of bytes ≡ [] }
    ensures left_out { (bytes : List ℕ) → HasOnlyOperations bytes → IsAgreed (log_operations bytes)
        → left_out_of bytes ≡ nothing_left_out }
{}

/// The operations of a mended log are those of all lines of the log that no operation beats, in
/// their order: of insertions of one identifier that differ those with the least line, and all
/// deletions.
pub fn a_mended_log_has_what_is_not_beaten()
    ensures operations { (bytes : List ℕ) → let all = whole_operations bytes in AreWritable all
        → log_operations (mended bytes) ≡ unbeaten all all }
    ensures contains { (bytes : List ℕ) (op : Op) → let all = whole_operations bytes in
        AreWritable all → Contains (log_operations (mended bytes)) op
        ↔ (Contains all op × ¬ IsBeaten all op) }
{}

/// A mended log has only operations, and these agree: no two are insertions of one identifier that
/// differ.
pub fn a_mended_log_agrees()
    ensures operations { (bytes : List ℕ) → AreWritable (whole_operations bytes)
        → HasOnlyOperations (mended bytes) }
    ensures agreed { (bytes : List ℕ) → AreWritable (whole_operations bytes)
        → IsAgreed (log_operations (mended bytes)) }
{}

/// Logs with the same operations, however their lines are composed, are mended to the same content.
pub fn logs_with_the_same_operations_are_mended_alike()
    ensures { (bytes others : List ℕ) → AreWritable (whole_operations bytes)
        → AreWritable (whole_operations others)
        → HasSameOperations (whole_operations bytes) (whole_operations others)
        → content_of (log_operations (mended bytes)) ≡ content_of (log_operations (mended others)) }
{}

/// Each line stays as it is and nothing of it is left out, or it is left out as it is, and in its
/// place stand the lines of those of its operations that are not beaten.
pub fn each_line_stays_or_is_left_out()
    ensures { (bytes line : List ℕ) → let all = whole_operations bytes in
        StaysWhole all line ⊎ IsLeftOut all line }
{}

/// If the machine stops behind any beginning of the steps of `mend_note` that give the mended log
/// its name, or behind those that it gave up, the old log stands under the name or the mended one.
pub fn a_note_is_the_old_or_the_mended_one_whenever_the_machine_stops()
    ensures { (bytes : List ℕ) (found : Option (List ℕ)) (p : Place) (made : List DiskStep)
        → IsUntouched p → MayBeMade (fitted bytes) made
        → MayBeFound (Some bytes) (behind_steps p made) found
        → (found ≡ Some bytes) ⊎ (found ≡ Some (fitted bytes)) }
{}
