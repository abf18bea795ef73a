//! Searches, in words.
ghost use Rattle.std.specs.Prelude.{◌≡◌, ◌≤◌, ◌+◌, ℕ, suc, true, false, List, length, Some, None};
ghost use Rattle.mg_plain.specs.Matches.{stands_at, first_match, last_match};
ghost use Rattle.mg_plain.specs.Scans.{IsLeast, IsGreatest};

/// A search forward finds the least index from the start on at which the pattern stands, which lies
/// within the text, and fails where it stands nowhere; a search backward finds the greatest up to
/// the start.
pub fn searches_in_words()
    ensures first { (pattern text : List ℕ) (start i : ℕ) →
        first_match pattern text start ≡ Some i →
        IsLeast (stands_at pattern text) start (suc (length text)) i }
    ensures no_first { (pattern text : List ℕ) (start : ℕ) →
        first_match pattern text start ≡ None →
        (k : ℕ) → start ≤ k → k ≤ length text → stands_at pattern text k ≡ false }
    ensures last { (pattern text : List ℕ) (start i : ℕ) → last_match pattern text start ≡ Some i →
        IsGreatest (stands_at pattern text) (suc start) i }
    ensures no_last { (pattern text : List ℕ) (start : ℕ) → start ≤ length text →
        last_match pattern text start ≡ None →
        (k : ℕ) → k ≤ start → stands_at pattern text k ≡ false }
    ensures within { (pattern text : List ℕ) (i : ℕ) → i ≤ length text →
        stands_at pattern text i ≡ true → i + length pattern ≤ length text }
{}
