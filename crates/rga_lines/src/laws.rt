//! Laws over the definitions of `specs/` alone. Each is the contract of a function that does
//! nothing.
ghost use Rattle.std.specs.Prelude.{◌≡◌, ℕ, ◌<◌, ◌^◌, ◌++◌, [], ◌∷◌, List, true, false, Ok, Err};
ghost use Rattle.rga_ops.specs.Operation.{checked};
ghost use Rattle.rga_ops.specs.declared.op.Op.{Op};
ghost use Rattle.std.specs.Result.{result_err};
ghost use Rattle.serde_json.specs.Data.{Data};
ghost use Rattle.rga_lines.specs.Faults.{first_fault, line_demands, operation_demands, value_demands};
ghost use Rattle.rga_lines.specs.Table.{any_line_at, line_at, value_line};
ghost use Rattle.rga_lines.specs.Runs.{Stretch, IsRun, IsDeletionRun};
ghost use Rattle.rga_lines.specs.declared.deletion_run.DeletionRun.{DeletionRun};
ghost use Rattle.rga_lines.specs.Spelling.{line, end_line, head_line, run_line, deletion_run_line};
ghost use Rattle.rga_lines.specs.Spelling.{IsWritable, IsWritableRun};
ghost use Rattle.rga_lines.specs.Stream.{HasNoNewline, lines_of, rest_of, IsCut, BeginsLong};
ghost use Rattle.rga_lines.specs.Stream.{StreamCall, splitting_with, after_calls, lines_given, bytes_fed};
ghost use Rattle.rga_lines.specs.declared.line.Line.TheVariants.{One, Run as RunLine, Deletions, Head, Last};
ghost use Rattle.rga_lines.specs.declared.fault.LineFault.{LineFault};
ghost use Rattle.rga_lines.specs.declared.fault.LineFault.TheVariants.{Kind};

/// The operation that a line says is well-formed, where the line may also be the end of an
/// exchange and where it may not.
pub fn read_operations_are_well_formed()
    ensures any { (bytes : List ℕ) (op : Op)
        → any_line_at bytes ≡ Ok (One op) → checked op ≡ Ok tt }
    ensures operation { (bytes : List ℕ) (op : Op) → line_at bytes ≡ Ok op → checked op ≡ Ok tt }
{}

/// The line of a well-formed operation says that operation.
pub fn written_lines_read_back()
    ensures any { (op : Op) → IsWritable op → checked op ≡ Ok tt
        → any_line_at (line op) ≡ Ok (One op) }
    ensures operation { (op : Op) → IsWritable op → checked op ≡ Ok tt
        → line_at (line op) ≡ Ok op }
{}

/// The run that a line says has 1 to 4096 characters, a last counter that is in range, and a
/// counter above its parent's; and the line of such a run says that run.
pub fn runs_read_back()
    ensures run { (bytes : List ℕ) (r : Stretch) → any_line_at bytes ≡ Ok (RunLine r) → IsRun r }
    ensures written { (r : Stretch) → IsWritableRun r → any_line_at (run_line r) ≡ Ok (RunLine r) }
{}

/// The run of deletions that a line says is of 1 to 4096 elements, of which the last one's counter
/// is in range; and the line of such a run says that run. Where operations alone may stand it is a
/// line of another kind.
pub fn runs_of_deletions_read_back()
    ensures run { (bytes : List ℕ) (r : DeletionRun)
        → any_line_at bytes ≡ Ok (Deletions r) → IsDeletionRun r }
    ensures written { (r : DeletionRun) → IsDeletionRun r
        → any_line_at (deletion_run_line r) ≡ Ok (Deletions r) }
    ensures operation { (r : DeletionRun) → IsDeletionRun r
        → line_at (deletion_run_line r) ≡ Err Kind }
{}

/// The line that ends an exchange of so many operations says their number. Where operations alone
/// may stand it is a line of another kind.
pub fn written_ends_read_back()
    ensures any { (operations : ℕ) → operations < 2 ^ 64
        → any_line_at (end_line operations) ≡ Ok (Last operations) }
    ensures operation { (operations : ℕ) → operations < 2 ^ 64
        → line_at (end_line operations) ≡ Err Kind }
{}

/// The line that begins an exchange says that. Where operations alone may stand it is a line of
/// another kind.
pub fn written_heads_read_back()
    ensures any { any_line_at head_line ≡ Ok Head }
    ensures operation { line_at head_line ≡ Err Kind }
{}

/// No line that is written has a newline in it, so each is one line of a stream.
pub fn written_lines_have_no_newline()
    ensures operation { (op : Op) → IsWritable op → HasNoNewline (line op) }
    ensures run { (r : Stretch) → IsWritableRun r → HasNoNewline (run_line r) }
    ensures deletions { (r : DeletionRun) → IsDeletionRun r → HasNoNewline (deletion_run_line r) }
    ensures head { HasNoNewline head_line }
    ensures end { (operations : ℕ) → operations < 2 ^ 64 → HasNoNewline (end_line operations) }
{}

/// No proper beginning of the line of an operation or of a run is an operation, a run, or the end
/// of an exchange.
pub fn beginnings_of_lines_are_none()
    ensures operation { (op : Op) (front : List ℕ) (b : ℕ) (back : List ℕ)
        → IsWritable op → line op ≡ front ++ b ∷ back
        → (e : LineFault) × (any_line_at front ≡ Err e) }
    ensures run { (r : Stretch) (front : List ℕ) (b : ℕ) (back : List ℕ)
        → IsWritableRun r → run_line r ≡ front ++ b ∷ back
        → (e : LineFault) × (any_line_at front ≡ Err e) }
{}

/// A stream is cut into lines and a rest in one way.
pub fn a_stream_has_one_cut()
    ensures is_cut { (bytes : List ℕ) → IsCut bytes (lines_of bytes) (rest_of bytes) }
    ensures only { (bytes : List ℕ) (lines : List (List ℕ)) (rest : List ℕ)
        → IsCut bytes lines rest → (lines ≡ lines_of bytes) × (rest ≡ rest_of bytes) }
{}

/// The lines that a splitter gives, and what waits in it then, are those of all that it was fed,
/// in whatever pieces and between whatever calls. Where it gave up, the lines before are those of
/// the stream, and the next one has more than `MAX_LINE` bytes, or the rest where there is none.
pub fn lines_do_not_depend_on_the_cutting()
    ensures whole { (calls : List StreamCall) → let end = after_calls (splitting_with []) calls in
        end.broken ≡ false
        → (lines_of (bytes_fed calls) ≡ lines_given (splitting_with []) calls
        ++ lines_of end.waiting)
        × (rest_of (bytes_fed calls) ≡ rest_of end.waiting) }
    ensures broken { (calls : List StreamCall)
        → (after_calls (splitting_with []) calls).broken ≡ true
        → (others : List (List ℕ))
        × (lines_of (bytes_fed calls) ≡ lines_given (splitting_with []) calls ++ others)
        × BeginsLong others (rest_of (bytes_fed calls)) }
{}

/// A line, and a value as a line, is at fault exactly where it does not meet a demand of the table
/// of `specs/Faults.antt`, and its fault is that of the first one. A line that meets all is right.
/// Where one operation alone may stand, there is one demand more.
pub fn a_line_has_the_fault_of_the_first_demand_it_does_not_meet()
    ensures value { (d : Data) → result_err (value_line d) ≡ first_fault (value_demands d) }
    ensures line { (bytes : List ℕ) →
        result_err (any_line_at bytes) ≡ first_fault (line_demands bytes) }
    ensures operation { (bytes : List ℕ) →
        result_err (line_at bytes) ≡ first_fault (operation_demands bytes) }
{}
