//! Theorems about summaries, about claims, about what is told, and about what is sent by it.
//!
//! The functions do nothing: their contracts are theorems that the check proves.
ghost use Rattle.std.specs.Prelude.{◌≡◌, ◌↔◌, ℕ, ◌<◌, ◌≤◌, ◌^◌, List, Contains, length, Result, Ok};
ghost use Rattle.std.specs.List.{AllByRecursion};
ghost use Rattle.rga_ops.specs.Content.{Content, Agree, Holds, IsWithin, IsSound, join, content_of, known_count};
ghost use Rattle.rga_ops.specs.Operations.{operations};
ghost use Rattle.rga_ops.specs.declared.op.Op.{Op as Operation};
ghost use Rattle.rga_exchange.specs.Receiving.{exchange_outcome};
ghost use Rattle.rga_exchange.specs.Sending.{AreWritable, exchange_text, stream_text};
ghost use Rattle.rga_exchange.specs.declared.fault.ReceiveFault.{ReceiveFault as Fault};
ghost use Rattle.rga_brief.specs.Summary.{Summary, IsSummary, DigestsTellApart, digests_at, missing};
ghost use Rattle.rga_brief.specs.declared.block.Block.{Block};
ghost use Rattle.rga_brief.specs.Alike.{AreReceivedAlike};
ghost use Rattle.rga_brief.specs.Claims.{IsInRange};
ghost use Rattle.rga_brief.specs.Summaries.{claims_of, last_claimed, summary_from};
ghost use Rattle.rga_brief.specs.Taking.{taken_in_turn};
ghost use Rattle.rga_brief.specs.Told.{IsHeardAs, summary_heard, summary_text};
ghost use Rattle.rga_brief.specs.declared.claim.Claim.{Claim};

/// There is one summary for each content.
pub fn there_is_one_summary()
    ensures { (c : Content) (s t : Summary) → IsSummary c s → IsSummary c t → s ≡ t }
{}

/// Whatever a summary claims, what is sent is of the sender's content. So who takes it keeps all
/// that it holds, and comes to hold no more than both: a wrong claim leaves operations out, and
/// does nothing else.
pub fn what_is_sent_is_held()
    ensures held { (c : Content) (s : Summary) (op : Operation) →
        Contains (missing c s) op → Holds c op }
    ensures within { (c d : Content) (s : Summary) →
        IsWithin (join d (content_of (missing c s))) (join d c) }
    ensures kept { (c d : Content) (s : Summary) →
        IsWithin d (join d (content_of (missing c s))) }
{}

/// If the summary is that of a replica, and digests tell its blocks and the sender's apart, what is
/// missing is as good as all, also if the replica has grown since it gave the summary. What is left
/// out is held there already.
///
/// So it is taken exactly as all would be: the same is held then, and the same refusal, a conflict
/// or a full store, comes if one does. Where nothing is refused the join of both is held. Two
/// replicas that agree, and send each other what is missing by the summary of the other, end with
/// one content.
pub fn what_is_missing_is_enough()
    ensures taken { (limit : ℕ) (c d now : Content) (s : Summary) → IsSound c → IsSummary d s
        → IsWithin d now → DigestsTellApart c d
        → taken_in_turn limit now (missing c s) ≡ taken_in_turn limit now (operations c) }
    ensures joined { (c d now : Content) (s : Summary) → IsSummary d s → IsWithin d now →
        DigestsTellApart c d → join now (content_of (missing c s)) ≡ join now c }
    ensures one_content { (c d : Content) (s t : Summary) → Agree c d → DigestsTellApart c d →
        IsSummary c s → IsSummary d t →
        join d (content_of (missing c t)) ≡ join c (content_of (missing d s)) }
{}

/// Claims mean, of each block, what the last claim of it says; of a block without one they say that
/// nothing is there.
pub fn the_last_claim_of_a_block_counts()
    ensures { (claims : List Claim) (block : Block) →
        digests_at (summary_from claims) block ≡ last_claimed block claims }
{}

/// What is heard of bytes: their first lines say claims, and what stands behind these is the end
/// line, which counts them, or the one fault that is answered.
pub fn what_is_heard_in_words()
    ensures { (bytes : List ℕ) (answer : Result Summary Fault) →
        (summary_heard bytes ≡ answer) ↔ IsHeardAs bytes answer }
{}

/// The claims of a content's summary are those of no other: from them it comes back.
pub fn a_summary_comes_back_from_its_claims()
    ensures { (c : Content) (s : Summary) → IsSummary c s → summary_from (claims_of s) ≡ s }
{}

/// The summary of a content is heard of what is told of it, if its numbers are those of the types,
/// and the content knows no more identifiers than a store may.
pub fn a_summary_is_heard_as_it_was_told()
    ensures { (c : Content) (s : Summary) → IsSummary c s → AllByRecursion IsInRange (claims_of s)
        → known_count c ≤ 1000000 → summary_heard (summary_text s) ≡ Ok s }
{}

/// A content's summary has at most as many claims as the content knows identifiers.
pub fn a_summary_has_few_claims()
    ensures { (c : Content) (s : Summary) → IsSummary c s → length (claims_of s) ≤ known_count c }
{}

/// If the summary is that of a replica, and digests tell its blocks and the sender's apart, an
/// exchange of what is missing there leads to what an exchange of all leads to, also if the replica
/// has grown since: to the same content, and to the same refusal, if there is one. Numbers of lines
/// and of operations may differ.
pub fn what_is_missing_is_received_as_all_is()
    ensures { (limit : ℕ) (c d now : Content) (s : Summary) → IsSound c
        → AreWritable (operations c) → length (operations c) < 2 ^ 64
        → IsSummary d s → IsWithin d now → DigestsTellApart c d
        → AreReceivedAlike (exchange_outcome limit now (exchange_text (missing c s)))
        (exchange_outcome limit now (stream_text c)) }
{}
