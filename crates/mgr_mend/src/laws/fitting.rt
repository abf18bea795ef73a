//! Theorems about the lines of a mended log that a note has room for. Each function does nothing: its
//! contract is the theorem.
ghost use Rattle.std.specs.Prelude.{◌≡◌, ℕ, List, [], Ok};
ghost use Rattle.rga_ops.specs.Content.{Content, content_of};
ghost use Rattle.rga_lines.specs.Log.{log_operations, HasOnlyOperations};
ghost use Rattle.rga_lines.specs.Stream.{bytes_of_lines, rest_of};
ghost use Rattle.rga_exchange.specs.Sending.{AreWritable};
ghost use Rattle.mgr_show.specs.Log.{log_of};
ghost use Rattle.mgr_mend.specs.Mending.{whole_operations, mended, refused_of, left_out_of};
ghost use Rattle.mgr_mend.specs.Fitting.{fitted, all_refused, all_left_out, note_lines};

/// What the log of a note is mended to is read whole: it has only operations, these agree, they bring
/// at most 1,000,000 identifiers, and its last line ends in a newline.
pub fn a_mended_note_is_read()
    ensures operations { (bytes : List ℕ) → AreWritable (whole_operations bytes)
        → HasOnlyOperations (fitted bytes) }
    ensures read { (bytes : List ℕ) → AreWritable (whole_operations bytes)
        → log_of 1000000 (fitted bytes) ≡ Ok (content_of (log_operations (fitted bytes))) }
    ensures ends { (bytes : List ℕ) → AreWritable (whole_operations bytes)
        → rest_of (fitted bytes) ≡ [] }
{}

/// Where there is room for all of a mended log, each line of it stays, and nothing else is left out.
pub fn a_mended_log_with_room_stays()
    ensures log { (bytes : List ℕ) (c : Content) → log_of 1000000 (mended bytes) ≡ Ok c
        → fitted bytes ≡ bytes_of_lines (note_lines (mended bytes)) }
    ensures refused { (bytes : List ℕ) (c : Content) → log_of 1000000 (mended bytes) ≡ Ok c
        → all_refused bytes ≡ refused_of bytes }
    ensures left_out { (bytes : List ℕ) (c : Content) → log_of 1000000 (mended bytes) ≡ Ok c
        → all_left_out bytes ≡ left_out_of bytes }
{}
