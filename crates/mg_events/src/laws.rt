//! Theorems about reports, and about keys and reports.
//!
//! The functions do nothing: their contracts are theorems over the definitions of `specs/`, which
//! the check proves like any other contract.
ghost use Rattle.std.specs.Prelude.{◌≡◌, ◌≢◌, ◌≤◌, ◌<◌, [], ◌∷◌, ◌++◌, ℕ, List, length, Some, Err, true};
ghost use Rattle.std.specs.Result.{result_err};
ghost use Rattle.serde_json.specs.Data.{Data};
ghost use Rattle.rga_lines.specs.Faults.{first_fault};
ghost use Rattle.rga_lines.specs.Table.{any_line_at};
ghost use Rattle.rga_lines.specs.declared.fault.LineFault.{LineFault};
ghost use Rattle.rga_lines.specs.declared.fault.LineFault.TheVariants.{Kind, Long};
ghost use Rattle.rga_lines.specs.Memory.{LineMemory as Memory};
ghost use Rattle.mg_events.specs.Reports.{operations_report, report_at, value_report};
ghost use Rattle.mg_events.specs.Faults.{ReportKind, kind_of, report_demands};
ghost use Rattle.mg_events.specs.Reading.{HasNoMemory, Leads, Reading, Told, after, dropping, events, fresh, is_in_report, report, refused};
ghost use Rattle.mg_events.specs.Written.{AreKeys, ArePieces, IsOneLine, keys, stream, written};

/// A line of a log says the same as a report, and has the same fault. Only where its fault is
/// `Kind`, it may be a report of another kind.
pub fn a_line_of_a_log_says_the_same_as_a_report()
    ensures { (bytes : List ℕ) → any_line_at bytes ≢ Err Kind
        → report_at bytes ≡ operations_report (any_line_at bytes) }
{}

/// A report that is no operation is at fault exactly where it does not meet a demand of the table of
/// `specs/Faults.antt`, and its fault is that of the first one.
pub fn a_report_has_the_fault_of_the_first_demand_it_does_not_meet()
    ensures { (d : Data) (kind : ReportKind) → kind_of d ≡ Some kind
        → result_err (value_report d) ≡ first_fault (report_demands kind d) }
{}

/// Keys and reports that are written in any order are read as these. Bytes that begin no report are
/// keys, whatever comes behind them. A report leads to its line, and one that is too long to its
/// refusal, and both leave nothing begun. What is dropped leads to its fault at the newline. A report
/// that is cut off leads to nothing, and is begun.
pub fn what_is_written_is_read()
    ensures stream { (ts : List Told) → ArePieces ts → events fresh (stream ts) ≡ ts }
    ensures keys { (bytes rest : List ℕ) → AreKeys bytes
        → events fresh (bytes ++ rest) ≡ keys bytes ++ events fresh rest }
    ensures report { (line rest : List ℕ) → IsOneLine line → length line ≤ 65536
        → events fresh (written line ++ rest) ≡ report line ∷ events fresh rest }
    ensures long { (line rest : List ℕ) → IsOneLine line → 65536 < length line
        → events fresh (written line ++ rest) ≡ refused Long ∷ events fresh rest }
    ensures dropped { (fault : LineFault) (bytes rest : List ℕ) → IsOneLine bytes
        → events (dropping fault) (bytes ++ 10 ∷ rest) ≡ refused fault ∷ events fresh rest }
    ensures cut { (line : List ℕ) → IsOneLine line → (events fresh (255 ∷ line) ≡ [])
        × (is_in_report (after fresh (255 ∷ line)).phase ≡ true) }
{}

/// Want of memory shows: if it was refused at a byte, the report is refused for it, or the rest of
/// that report is still dropped. Otherwise all that was read is exact.
pub fn want_of_memory_shows()
    ensures { (r left : Reading) (bytes : List ℕ) (ts : List Told) → Leads r bytes ts left
        → HasNoMemory ts → left ≢ dropping Memory
        → (ts ≡ events r bytes) × (left ≡ after r bytes) }
{}
