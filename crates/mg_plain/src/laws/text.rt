//! Theorems about scans, words and filling.
//!
//! Each function does nothing: its contract is a theorem over the definitions of `specs/`, which
//! the check proves like any other contract.
ghost use Rattle.std.specs.Prelude.{◌≡◌, ◌≢◌, ◌≤◌, ◌<◌, ◌+◌, ◌↔◌, ◌++◌, ◌∷◌, ℕ, Bool, false, List, [], length, map, None, Some};
ghost use Rattle.std.specs.List.{Contains};
ghost use Rattle.mg_plain.specs.Gaps.{gaps};
ghost use Rattle.mg_plain.specs.Layout.{IsLayout, layout_joints, word_length, put_of};
ghost use Rattle.mg_plain.specs.Paragraphs.{IsWord, words};
ghost use Rattle.mg_plain.specs.Scans.{least, greatest_passing, IsLeast, IsGreatest};
ghost use Rattle.mg_plain.specs.Spans.{Span, AreRisingSpans};

/// A scan finds the least number that passes, or the greatest, and nothing where none does.
pub fn scans_find_the_least_and_the_greatest()
    ensures least { (p : ℕ → Bool) (n count q : ℕ) →
        least p n count ≡ Some q → IsLeast p n (n + count) q }
    ensures no_least { (p : ℕ → Bool) (n count : ℕ) →
        least p n count ≡ None → (k : ℕ) → n ≤ k → k < n + count → p k ≡ false }
    ensures greatest { (p : ℕ → Bool) (bound q : ℕ) →
        greatest_passing p bound ≡ Some q → IsGreatest p bound q }
    ensures no_greatest { (p : ℕ → Bool) (bound : ℕ) →
        greatest_passing p bound ≡ None → (k : ℕ) → k < bound → p k ≡ false }
{}

/// The words between two places are the greatest runs there of what is neither space nor tab nor
/// newline, all of them and in order.
pub fn words_are_the_greatest_runs()
    ensures order { (text : List ℕ) (lo hi : ℕ) → lo ≤ hi →
        AreRisingSpans lo hi (words text lo hi) }
    ensures runs { (text : List ℕ) (lo hi : ℕ) (w : Span) → lo ≤ hi → hi ≤ length text →
        Contains (words text lo hi) w ↔ IsWord text lo hi w }
{}

/// Words of any lengths have a layout. Whatever layout they have, filling makes it: so there is
/// just one.
pub fn filling_makes_the_layout()
    ensures some { (column : ℕ) (lengths : List ℕ) → (ns : List ℕ) × IsLayout column lengths ns }
    ensures made { (column lo hi : ℕ) (words : List Span) (ns : List ℕ) → words ≢ [] →
        IsLayout column (map word_length words) ns →
        map put_of (gaps column None lo hi words) ≡ layout_joints ns ++ [] ∷ [] }
{}
