//! Filling, in words.
ghost use Rattle.std.specs.Prelude.{ℕ};
ghost use Rattle.mg_plain.specs.Gaps.{fill_paragraph};
ghost use Rattle.mg_plain.specs.Situation.{Situation, IsView};
ghost use Rattle.mg_plain.specs.Layout.{AreOfBlanks};

/// Filling touches no word: spaces, tabs and newlines alone go, and one space or one newline comes.
pub fn filling_touches_no_word()
    ensures { (column : ℕ) (s : Situation) → IsView s →
        AreOfBlanks s.text (fill_paragraph column s).splices }
{}
