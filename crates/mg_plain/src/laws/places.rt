//! Places that commands go to, in words.
ghost use Rattle.std.specs.Prelude.{◌≤◌, ◌<◌, ◌+◌, ◌-◌, ℕ, List, length};
ghost use Rattle.std.specs.List.{slice_index};
ghost use Rattle.mg_plain.specs.Characters.{is_newline};
ghost use Rattle.mg_plain.specs.LineEnds.{begins_line, line_begin, line_end};
ghost use Rattle.mg_plain.specs.Paragraphs.{begins_paragraph, ends_paragraph, paragraph};
ghost use Rattle.mg_plain.specs.Scans.{IsLeastFrom, IsGreatestUpTo};
ghost use Rattle.mg_plain.specs.Words.{begins_word, ends_word, word_begin, word_end};

/// The begins and ends of lines, words and paragraphs are the greatest and the least places that
/// they are said to be.
pub fn places_in_words()
    ensures line_begin { (text : List ℕ) (q : ℕ) →
        IsGreatestUpTo (begins_line text) q (line_begin text q) }
    ensures line_end { (text : List ℕ) (q : ℕ) → q ≤ length text →
        IsLeastFrom (λ k. is_newline (slice_index text k)) q (length text) (line_end text q) }
    ensures word_begin { (text : List ℕ) (q : ℕ) →
        IsGreatestUpTo (begins_word text) (q - 1) (word_begin text q) }
    ensures word_end { (text : List ℕ) (q : ℕ) → q < length text →
        IsLeastFrom (ends_word text) (q + 1) (length text) (word_end text q) }
    ensures paragraph_begin { (text : List ℕ) (q : ℕ) →
        IsGreatestUpTo (begins_paragraph text) q (paragraph text q).lo }
    ensures paragraph_end { (text : List ℕ) (q : ℕ) → q ≤ length text →
        IsLeastFrom (ends_paragraph text) q (length text) (paragraph text q).hi }
{}
