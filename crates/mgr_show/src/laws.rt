//! Theorems about what is made of logs: compacted, joined and cut ones, who wrote a text, and what
//! claims lack. Each function does nothing: its contract is the theorem.
ghost use Rattle.std.specs.Prelude.{◌≡◌, ◌↔◌, ◌⊎◌, ℕ, ◌≤◌, ◌<◌, Bool, Ok, Err, List, [], ◌∷◌, ◌++◌, length, take, ◌==◌, flat_map, map, zip, Some};
ghost use Rattle.rga_ops.specs.Content.{Content, content_of, nothing, known_count, IsWithin};
ghost use Rattle.rga_lines.specs.Stream.{lines_of, rest_of};
ghost use Rattle.rga_store.specs.declared.text_store.TheConstants.{MAX_LIMIT};
ghost use Rattle.rga_exchange.specs.Sending.{StandsFor};
ghost use Rattle.mgr_show.specs.Shown.{IsAccepted, log_content};
ghost use Rattle.mgr_show.specs.Compacted.{compacted_lines, log_lines};
ghost use Rattle.mgr_show.specs.Joined.{join_of, join_text, all_operations, MayBeTaken, MayBeJoined, HasSameLogs, IsFirstRefused, AreFar};
ghost use Rattle.mgr_show.specs.Note.{first_lines, IsReadable};
ghost use Rattle.mgr_show.specs.declared.fault.JoinFault.{JoinFault as Fault};
ghost use Rattle.std.specs.List.{list_any};
ghost use Rattle.std.specs.Map.{keys_of};
ghost use Rattle.rga_ops.specs.Prelude.{Identifier, operations, text, visible};
ghost use Rattle.mgr_show.specs.Authors.{authored, authored_lines, pieces, writers, Authored, Piece};
ghost use Rattle.mgr_show.specs.Tallies.{and_tallies, tally_of};
ghost use Rattle.mgr_show.specs.Meant.{counters_of, summary, AreLines, ArePieces, IsRising};
ghost use Rattle.rga_lines.specs.declared.fault.LineFault.TheVariants.{Kind};
ghost use Rattle.rga_lines.specs.Table.{any_line_at};
ghost use Rattle.rga_exchange.specs.Log.{log_outcome};
ghost use Rattle.rga_exchange.specs.declared.log.LogRead.{LogRead};
ghost use Rattle.rga_brief.specs.Summary.{Summary, IsSummary, DigestsTellApart};
ghost use Rattle.rga_brief.specs.Lines.{claim_line_at};
ghost use Rattle.rga_brief.specs.Told.{IsHeardAs};
ghost use Rattle.mgr_show.specs.Claims.{after_head, head_line, head_text, AreClaimsOf};
ghost use Rattle.mgr_show.specs.Missing.{claims_heard, lacked, lacked_text};

/// A log that is accepted is compacted to no more lines than it has, with `dels` or without. Its
/// rest counts as a line.
pub fn a_compacted_log_has_no_more_lines()
    ensures { (dels : Bool) (bytes : List ℕ) → IsAccepted bytes
        → length (compacted_lines dels bytes) ≤ length (log_lines bytes) }
{}

/// Logs are joined exactly if each has only operations, all of these agree with one another,
/// together they know no more identifiers than the limit, and no counter is far above how many
/// these are. The join is the content of all of them.
pub fn logs_that_agree_are_joined()
    ensures { (logs : List (List ℕ)) (c : Content) → (join_of MAX_LIMIT logs ≡ Ok c)
        ↔ (MayBeJoined logs × (c ≡ content_of (all_operations logs))) }
{}

/// In which order logs are joined, and how often each, makes no difference: they are joined to the
/// same content, and the same lines are written.
#[tactic(auto, using(crate::proofs::JoinWordsLaws::same_joined, crate::proofs::JoinWordsLaws::same_text))]
pub fn order_and_repeats_of_logs_do_not_matter()
    ensures content { (logs others : List (List ℕ)) (c : Content) → HasSameLogs logs others
        → join_of MAX_LIMIT logs ≡ Ok c → join_of MAX_LIMIT others ≡ Ok c }
    ensures lines { (logs others : List (List ℕ)) → HasSameLogs logs others → MayBeTaken logs
        → join_text logs ≡ join_text others }
{}

/// A join may be joined in place of its logs, as may any log that stands for their content and ends
/// in a newline: with others it leads to what its logs lead to with them.
pub fn a_join_may_be_joined_in_place_of_its_logs()
    ensures { (logs others : List (List ℕ)) (bytes : List ℕ) (c : Content) → MayBeTaken logs
        → StandsFor bytes (content_of (all_operations logs)) → rest_of bytes ≡ []
        → (join_of MAX_LIMIT (bytes ∷ others) ≡ Ok c)
        ↔ (join_of MAX_LIMIT (logs ++ others) ≡ Ok c) }
{}

/// Logs are refused exactly if one of them is, after others that are taken: this one is named; or
/// if all may be taken, and a counter is far above how many identifiers they know.
pub fn the_first_log_that_is_refused_is_named()
    ensures { (logs : List (List ℕ)) (e : Fault) → (join_of MAX_LIMIT logs ≡ Err e)
        ↔ (IsFirstRefused MAX_LIMIT 0 nothing logs e ⊎ AreFar logs e) }
{}

/// The first so many lines of a log are these lines, and nothing after them; all of the log, if it
/// has no more lines.
#[tactic(auto, using(crate::proofs::FirstLinesLaws::first_are_lines, crate::proofs::FirstLinesLaws::first_have_no_rest, crate::proofs::FirstLinesLaws::all_lines))]
pub fn first_lines_are_the_first()
    ensures lines { (n : ℕ) (bytes : List ℕ)
        → lines_of (first_lines n bytes) ≡ take n (lines_of bytes) }
    ensures rest { (n : ℕ) (bytes : List ℕ) → n ≤ length (lines_of bytes)
        → rest_of (first_lines n bytes) ≡ [] }
    ensures all { (n : ℕ) (bytes : List ℕ) → length (lines_of bytes) < n
        → first_lines n bytes ≡ bytes }
{}

/// The characters of a text come each with the replica of its own visible element.
#[tactic(auto, using(crate::proofs::PieceLaws::text_of_pieces))]
pub fn characters_are_of_visible_elements()
    ensures elements { (c : Content) →
        authored c ≡ zip (map (λ (id : Identifier). id.replica) (visible c)) (text c) }
    ensures text { (c : Content) →
        flat_map (λ (p : Piece). p.chars) (pieces (authored c)) ≡ text c }
{}

/// The pieces have the characters one after the other, each with its replica; none is empty, and
/// neighbours are of two replicas. There is no other list of such pieces.
#[tactic(auto, using(crate::proofs::PieceLaws::no_others))]
pub fn pieces_are_the_longest()
    ensures pieces { (xs : List Authored) → ArePieces xs (pieces xs) }
    ensures no_others { (xs : List Authored) (ps : List Piece) →
        ArePieces xs ps → ps ≡ pieces xs }
{}

/// The lines have the characters one after the other, and each ends at its newline, which the last
/// one may lack. Those who wrote in a line are told each once, in rising order.
#[tactic(auto, using(crate::proofs::LineLaws::all_lines, crate::proofs::LineLaws::are_lines, crate::proofs::LineLaws::are_writers, crate::proofs::LineLaws::writers_rise))]
pub fn lines_end_at_newlines()
    ensures whole { (xs : List Authored) → flat_map (λ l. l) (authored_lines xs) ≡ xs }
    ensures lines { (xs : List Authored) → AreLines (authored_lines xs) }
    ensures writers { (xs : List Authored) (n : ℕ) →
        list_any (λ m. m == n) (writers xs) ≡ list_any (λ (x : Authored). x.0 == n) xs }
    ensures rising { (xs : List Authored) → IsRising (writers xs) }
{}

/// What is told of a replica is how many characters it inserted, and the greatest counter of these;
/// nothing is told of one that inserted none. Replicas are told in rising order.
#[tactic(auto, using(crate::proofs::TallyLaws::replicas_rise, crate::proofs::TallyLaws::told_by_insertions))]
pub fn a_replica_is_told_by_its_insertions()
    ensures rising { (c : Content) → IsRising (keys_of (and_tallies [] (operations c))) }
    ensures told { (c : Content) (n : ℕ) →
        tally_of n (and_tallies [] (operations c)) ≡ summary (counters_of n c) }
{}

/// What is heard of the claims of a content is its summary, and nothing else.
pub fn claims_are_heard_as_they_were_told()
    ensures { (text : List ℕ) (c : Content) (peer : Summary) → AreClaimsOf text c
        → (claims_heard text ≡ Ok peer) ↔ IsSummary c peer }
{}

/// Something is heard of claims only if they begin with their head, and if only claims stand after
/// it, up to the line that counts them.
#[tactic(auto, using(crate::proofs::HeadLaws::head_exactly, crate::proofs::HeadLaws::heard_whole))]
pub fn what_is_heard_has_a_head_and_an_end()
    ensures head { (bytes rest : List ℕ) → (after_head bytes ≡ Some rest)
        ↔ (bytes ≡ head_text ++ rest) }
    ensures end { (bytes : List ℕ) (peer : Summary) → claims_heard bytes ≡ Ok peer
        → (rest : List ℕ) × (bytes ≡ head_text ++ rest) × IsHeardAs rest (Ok peer) }
{}

/// If the claims are those of a replica, and digests tell its blocks and those of the log apart,
/// the replica takes what is missing, as a log, exactly if it takes the whole log. It then holds
/// the same content. It may have grown since it made the claims. What `write_missing` promises of
/// its lines (`stands`) and of the log (`readable`) is what the law asks for.
pub fn what_is_missing_is_taken_as_the_whole_log_is()
    ensures taken { (limit : ℕ) (d now after : Content) (peer : Summary) (log : List ℕ)
        (read : LogRead) → IsSummary d peer → IsWithin d now
        → DigestsTellApart (log_content log) d → known_count now ≤ limit
        → StandsFor (lacked_text log peer) (content_of (lacked log peer))
        → log_outcome limit now log ≡ (after, Ok read)
        → (part : LogRead) × (log_outcome limit now (lacked_text log peer) ≡ (after, Ok part)) }
    ensures whole { (limit : ℕ) (d now after : Content) (peer : Summary) (log : List ℕ)
        (part : LogRead) → IsSummary d peer → IsWithin d now
        → DigestsTellApart (log_content log) d → known_count now ≤ limit
        → IsReadable log → StandsFor (lacked_text log peer) (content_of (lacked log peer))
        → log_outcome limit now (lacked_text log peer) ≡ (after, Ok part)
        → (read : LogRead) × (log_outcome limit now log ≡ (after, Ok read)) }
{}

/// The head of claims is no operation, no run, no head and no end of an exchange, and no claim.
#[tactic(auto, using(crate::proofs::HeadLineLaws::no_line, crate::proofs::HeadLineLaws::no_claim))]
pub fn the_head_of_claims_is_no_other_line()
    ensures operation { any_line_at head_line ≡ Err Kind }
    ensures claim { claim_line_at head_line ≡ Err Kind }
{}
