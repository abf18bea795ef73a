//! Theorems about logs and exchanges. Each function does nothing: its contract is the theorem.
ghost use Rattle.std.specs.Prelude.{◌≡◌, ◌↔◌, ℕ, ◌+◌, ◌<◌, ◌≤◌, ◌^◌, true, false, List, [], ◌∷◌, ◌++◌, length, Ok};
ghost use Rattle.rga_ops.specs.Content.{Content, Agree, join, content_of, known_count, IsSound};
ghost use Rattle.rga_ops.specs.ListAnswer.{AreWellFormed, IsJoinable};
ghost use Rattle.rga_ops.specs.Operations.{operations};
ghost use Rattle.rga_ops.specs.declared.op.Op.{Op as Operation};
ghost use Rattle.rga_lines.specs.Log.{behind_head, stream_operations, log_operations, HasOnlyOperations};
ghost use Rattle.rga_lines.specs.Stream.{newline, lines_of, rest_of};
ghost use Rattle.rga_lines.specs.Table.{any_line_at};
ghost use Rattle.rga_lines.specs.declared.line.Line.TheVariants.{Head};
ghost use Rattle.rga_lines.specs.declared.fault.LineFault.TheVariants.{Kind};
ghost use Rattle.rga_exchange.specs.Sending.{log_text, exchange_lines, stream_text};
ghost use Rattle.rga_exchange.specs.Sending.{AreWritable, StandsFor, GainsFirst};
ghost use Rattle.rga_exchange.specs.RunLines.{runs_text};
ghost use Rattle.rga_exchange.specs.Taking.{may_be_head, AtFault, Progress, progress, lines_taken, stream_taken, AreTaken};
ghost use Rattle.rga_exchange.specs.Log.{log_outcome};
ghost use Rattle.rga_exchange.specs.Receiving.{exchange_outcome};
ghost use Rattle.rga_exchange.specs.Stops.{IsTakenUpTo, one_further, all_lines, HasNothingTorn};
ghost use Rattle.rga_exchange.specs.declared.taking.Form.{Form};
ghost use Rattle.rga_exchange.specs.declared.taking.Form.TheVariants.{Log, Exchange};
ghost use Rattle.rga_exchange.specs.declared.fault.LogFault.TheVariants.{Line as FaultyLine};
ghost use Rattle.rga_exchange.specs.declared.log.LogRead.{LogRead};

mod compaction;

pub use compaction::{compacted_lines_are_no_more, compacted_lines_stand_for_the_content};

/// Where a log is empty or ends in a newline and stands for a content, and behind it are written
/// well-formed operations, which agree with one another and with that content and have identifiers
/// and characters that can be written, it stands for the content joined with them, and again ends
/// in a newline.
pub fn appended_lines_are_joined()
    ensures joined { (bytes : List ℕ) (c : Content) (ops : List Operation) → StandsFor bytes c
        → rest_of bytes ≡ [] → AreWritable ops → AreWellFormed ops → IsJoinable c ops
        → StandsFor (bytes ++ log_text ops) (join c (content_of ops)) }
    ensures ended { (bytes : List ℕ) (ops : List Operation) → rest_of bytes ≡ [] → AreWritable ops
        → rest_of (bytes ++ log_text ops) ≡ [] }

    // No rest is left of no bytes, and of bytes that end in a newline.
    ensures empty { rest_of [] ≡ [] }
    ensures newline { (front : List ℕ) → rest_of (front ++ newline ∷ []) ≡ [] }
{}

/// Where a log is empty or ends in a newline and stands for a content, and behind it is written a
/// beginning, however short, of the lines of operations as in `appended_lines_are_joined`, it has
/// the first so many of them behind its own, and stands for the content joined with them. So a log
/// that is cut off there loses no whole operation; the last one counts without its newline too.
pub fn cut_logs_stand_for_their_first_operations()
    ensures { (bytes : List ℕ) (c : Content) (ops : List Operation) (front rest : List ℕ)
        → StandsFor bytes c → rest_of bytes ≡ [] → AreWritable ops → AreWellFormed ops
        → IsJoinable c ops → front ++ rest ≡ log_text ops → GainsFirst bytes front c ops }
{}

/// What `appended_lines_are_joined` says holds of the same operations in runs.
pub fn appended_runs_are_joined()
    ensures joined { (bytes : List ℕ) (c : Content) (ops : List Operation) → StandsFor bytes c
        → rest_of bytes ≡ [] → AreWritable ops → AreWellFormed ops → IsJoinable c ops
        → StandsFor (bytes ++ runs_text ops) (join c (content_of ops)) }
    ensures ended { (bytes : List ℕ) (ops : List Operation) → rest_of bytes ≡ [] → AreWritable ops
        → AreWellFormed ops → rest_of (bytes ++ runs_text ops) ≡ [] }
{}

/// And so does what `cut_logs_stand_for_their_first_operations` says: a log that is cut off there
/// has the runs that are whole, and of the next one nothing, or all where only its newline is
/// missing.
pub fn cut_runs_stand_for_their_first_operations()
    ensures { (bytes : List ℕ) (c : Content) (ops : List Operation) (front rest : List ℕ)
        → StandsFor bytes c → rest_of bytes ≡ [] → AreWritable ops → AreWellFormed ops
        → IsJoinable c ops → front ++ rest ≡ runs_text ops → GainsFirst bytes front c ops }
{}

/// What is sent of a content is cut into the lines that were written, with nothing behind them; the
/// operations that they say, behind the head and up to the end line, are those of the content.
pub fn what_is_sent_says_the_content()
    ensures lines { (c : Content) → AreWritable (operations c)
        → length (operations c) < 2 ^ 64
        → lines_of (stream_text c) ≡ exchange_lines (operations c) }
    ensures rest { (c : Content) → AreWritable (operations c)
        → length (operations c) < 2 ^ 64 → rest_of (stream_text c) ≡ [] }
    ensures operations { (c : Content) → IsSound c → AreWritable (operations c)
        → length (operations c) < 2 ^ 64 → stream_operations (stream_text c) ≡ operations c }
{}

/// What is sent of a content is received whole by whatever holds a content that agrees with it and
/// has room for both: it then holds the join of both, and answers the number of the operations.
pub fn what_is_sent_is_received()
    ensures { (limit : ℕ) (c d : Content) → IsSound c → AreWritable (operations c)
        → length (operations c) < 2 ^ 64 → Agree d c → known_count (join d c) ≤ limit
        → exchange_outcome limit d (stream_text c) ≡ (join d c, Ok (length (operations c))) }
{}

/// What comes of the lines of a log, or of an exchange, each exactly where it comes. All are taken
/// where each is an operation or a run that is taken, or the head of an exchange. Else the first
/// that is not is the end line, or neither an operation nor a run nor the end, or an operation or a
/// run that is refused; a fault has the number of that line. A rest of more than 65536 bytes counts
/// as a line.
pub fn streams_in_words()
    ensures lines { (form : Form) (limit : ℕ) (c : Content) (lines : List (List ℕ)) (t : Progress)
        → known_count c ≤ limit
        → (lines_taken form limit 0 c lines ≡ t) ↔ IsTakenUpTo form limit c lines t }
    ensures stream { (form : Form) (limit : ℕ) (c : Content) (bytes : List ℕ)
        → stream_taken form limit c bytes ≡ lines_taken form limit 0 c (all_lines bytes) }
{}

/// Where the first line of an exchange is a head, it leads to what the lines behind it lead to,
/// with line numbers higher by one. With no head in front it leads to what the lines of a log lead
/// to. A head behind another line, or anywhere in a log, is a fault of its line.
pub fn heads_in_words()
    ensures first { (limit : ℕ) (c : Content) (line : List ℕ) (lines : List (List ℕ))
        → any_line_at line ≡ Ok Head → lines_taken Exchange limit 0 c (line ∷ lines)
        ≡ one_further (lines_taken Log limit 0 c lines) }
    ensures none { (limit : ℕ) (c : Content) (lines : List (List ℕ))
        → behind_head lines ≡ lines
        → lines_taken Exchange limit 0 c lines ≡ lines_taken Log limit 0 c lines }
    ensures elsewhere { (form : Form) (limit n : ℕ) (c : Content) (line : List ℕ)
        (lines : List (List ℕ)) → any_line_at line ≡ Ok Head → may_be_head form (n + 1) ≡ false
        → lines_taken form limit n c (line ∷ lines)
        ≡ progress n c (AtFault (FaultyLine (n + 1) Kind)) }
    ensures which { (form : Form) (n : ℕ)
        → (may_be_head form n ≡ true) ↔ ((form ≡ Exchange) × (n ≡ 1)) }
{}

/// Where a taking ended early, for want of memory or by a device that failed, the first lines of
/// what was read are taken, those of an exchange behind its head. Then the same bytes from the
/// start, whatever follows them, lead to the content and the answer to which they would have led at
/// first.
pub fn what_is_taken_again_changes_nothing()
    ensures exchange { (limit : ℕ) (c d : Content) (bytes more : List ℕ)
        (lines later : List (List ℕ)) → known_count c ≤ limit → lines_of bytes ≡ lines ++ later
        → AreTaken limit (behind_head lines) c d
        → exchange_outcome limit d (bytes ++ more) ≡ exchange_outcome limit c (bytes ++ more) }
    ensures log { (limit : ℕ) (c d : Content) (bytes more : List ℕ)
        (lines later : List (List ℕ)) → known_count c ≤ limit → lines_of bytes ≡ lines ++ later
        → AreTaken limit lines c d
        → log_outcome limit d (bytes ++ more) ≡ log_outcome limit c (bytes ++ more) }
{}

/// A log is read to its end with nothing torn off exactly where each line is an operation, the rest
/// is one or is empty, the operations agree with one another and with what is held, and all
/// together know no more identifiers than the limit. What is held is then joined with their
/// content. Where a line was torn off, all that holds of the lines before it: the log stands for
/// the content of their operations, and what is held is joined with that.
pub fn logs_stand_for_their_operations()
    ensures joined { (limit : ℕ) (c d : Content) (read : LogRead) (bytes : List ℕ)
        → log_outcome limit c bytes ≡ (d, Ok read)
        → d ≡ join c (content_of (log_operations bytes)) }
    ensures joinable { (limit : ℕ) (c d : Content) (read : LogRead) (bytes : List ℕ)
        → known_count c ≤ limit → log_outcome limit c bytes ≡ (d, Ok read)
        → IsJoinable c (log_operations bytes) × (known_count d ≤ limit) }
    ensures lines { (limit : ℕ) (c d : Content) (read : LogRead) (bytes : List ℕ)
        → log_outcome limit c bytes ≡ (d, Ok read) → read.lines ≡ length (lines_of bytes) }
    ensures operations { (limit : ℕ) (c d : Content) (read : LogRead) (bytes : List ℕ)
        → log_outcome limit c bytes ≡ (d, Ok read) → HasNothingTorn read.end
        → HasOnlyOperations bytes }

    ensures without_fault { (limit : ℕ) (c : Content) (bytes : List ℕ) → HasOnlyOperations bytes
        → IsJoinable c (log_operations bytes)
        → known_count (join c (content_of (log_operations bytes))) ≤ limit
        → (read : LogRead) × (log_outcome limit c bytes
        ≡ (join c (content_of (log_operations bytes)), Ok read)) × HasNothingTorn read.end }

    // Whatever the rest: a log that is read to its end stands for the content of its operations,
    // and one that stands for a content is read to its end.
    ensures stands { (limit : ℕ) (c d : Content) (read : LogRead) (bytes : List ℕ)
        → known_count c ≤ limit → log_outcome limit c bytes ≡ (d, Ok read)
        → StandsFor bytes (content_of (log_operations bytes)) }
    ensures read { (limit : ℕ) (c d : Content) (bytes : List ℕ) → StandsFor bytes d
        → Agree c d → known_count (join c d) ≤ limit
        → (read : LogRead) × (log_outcome limit c bytes ≡ (join c d, Ok read)) }
{}
