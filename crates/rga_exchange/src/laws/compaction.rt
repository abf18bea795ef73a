//! Theorems about compacted logs. Each function does nothing: its contract is the theorem.
ghost use Rattle.std.specs.Prelude.{◌≡◌, ◌≤◌, ◌||◌, ℕ, Bool, List, [], length};
ghost use Rattle.std.specs.List.{AllByRecursion};
ghost use Rattle.rga_ops.specs.Content.{Content, content_of, IsAgreed, IsSound};
ghost use Rattle.rga_ops.specs.Operations.{operations};
ghost use Rattle.rga_lines.specs.Log.{operations_of, IsOperation};
ghost use Rattle.rga_lines.specs.Stream.{rest_of};
ghost use Rattle.rga_exchange.specs.DeletionRuns.{have_deletion_runs};
ghost use Rattle.rga_exchange.specs.Sending.{AreWritable, StandsFor};
ghost use Rattle.rga_exchange.specs.Compacting.{compact_lines, compact_text};
ghost use Rattle.rga_exchange.specs.FewLines.{first_operations, AllApart};

/// The compacted lines of a content whose operations are well-formed and can be written stand for
/// that content, and end in a newline, so that further lines may follow.
pub fn compacted_lines_stand_for_the_content()
    ensures { (c : Content) (dels : Bool) → IsSound c → AreWritable (operations c)
        → StandsFor (compact_text dels c) c × (rest_of (compact_text dels c) ≡ []) }
{}

/// Lines whose operations agree are compacted to no more lines, if deletions are written in runs
/// wherever one of the lines is a run of deletions: none of them stands for the first operations of
/// two lines that are written.
pub fn compacted_lines_are_no_more()
    ensures apart { (dels : Bool) (lines : List (List ℕ)) → AllByRecursion IsOperation lines
        → IsAgreed (operations_of lines)
        → AllApart lines (first_operations (dels || have_deletion_runs lines)
        (content_of (operations_of lines))) }
    ensures number { (dels : Bool) (lines : List (List ℕ)) → AllByRecursion IsOperation lines
        → IsAgreed (operations_of lines)
        → length (compact_lines (dels || have_deletion_runs lines)
        (content_of (operations_of lines))) ≤ length lines }
{}
