//! Worked examples of commands, computed.
ghost use Rattle.std.specs.Prelude.{◌≡◌, [], ◌∷◌, ◌++◌, Some, Ok, Err, codes};
ghost use Rattle.mg_plain.specs.declared.command.Command.TheVariants.{ForwardWord, BackwardWord, ForwardChar, NextLine, TransposeChars, CapitalizeWord, NewlineAndIndent, KillRegion, CopyRegionAsKill, KillLine, Yank, ScrollUp, InsertText, ReplaceRange};
ghost use Rattle.mg_plain.specs.declared.outcome.Notice.TheVariants.{BeginningOfBuffer, EndOfBuffer, SearchFailed};
ghost use Rattle.mg_plain.specs.declared.view.Kind.TheVariants.{Vertical};
ghost use Rattle.mg_plain.specs.Characters.{newline_character};
ghost use Rattle.mg_plain.specs.Commands.{effect};
ghost use Rattle.mg_plain.specs.Splices.{splice};
ghost use Rattle.mg_plain.specs.Effect.{edit_effect, motion};
ghost use Rattle.mg_plain.specs.Examples.{plain_view, text_and_point, outcome, point_of, kill_buffer, kill_of, after_kill, five_lines, short_line};
ghost use Rattle.mg_plain.specs.Gaps.{fill_paragraph};
ghost use Rattle.mg_plain.specs.Replacement.{search_forward, search_backward, replace_all};

/// Steps over the words of `foo, bar`.
pub fn steps_over_words()
    ensures first { let s = plain_view (codes "foo, bar") 0 in
        effect ForwardWord 1 s 70 ≡ Ok (motion s 3) }
    ensures second { let s = plain_view (codes "foo, bar") 3 in
        effect ForwardWord 1 s 70 ≡ Ok (motion s 8) }
    ensures both { let s = plain_view (codes "foo, bar") 0 in
        effect ForwardWord 2 s 70 ≡ Ok (motion s 8) }
    ensures no_third { effect ForwardWord 3 (plain_view (codes "foo, bar") 0) 70 ≡ Err EndOfBuffer }
    ensures back { let s = plain_view (codes "foo, bar") 8 in
        effect BackwardWord 1 s 70 ≡ Ok (motion s 5) }
    ensures further_back { let s = plain_view (codes "foo, bar") 5 in
        effect BackwardWord 1 s 70 ≡ Ok (motion s 0) }
    ensures no_further { effect BackwardWord 1 (plain_view (codes "foo, bar") 0) 70
        ≡ Err BeginningOfBuffer }
{}

/// The goal stays over a short line.
pub fn the_goal_stays_over_a_short_line()
    ensures first { let s = plain_view short_line 3 in
        effect NextLine 1 s 70 ≡ Ok (record (motion s 6) { goal = 3; kind = Vertical }) }
    ensures second { let s = record (plain_view short_line 6) { goal = 3; last = Vertical } in
        point_of (effect NextLine 1 s 70) ≡ Ok 10 }
    ensures both { point_of (effect NextLine 2 (plain_view short_line 3) 70) ≡ Ok 10 }
    ensures no_third { effect NextLine 3 (plain_view short_line 3) 70 ≡ Err EndOfBuffer }
    ensures too_far { effect ForwardChar 3 (plain_view (codes "ab") 0) 70 ≡ Err EndOfBuffer }
{}

/// A window of four rows scrolls by two lines.
pub fn scrolls_over_five_lines()
    ensures first { point_of (effect (ScrollUp 4) 1 (plain_view five_lines 0) 70) ≡ Ok 4 }
    ensures second { point_of (effect (ScrollUp 4) 1 (plain_view five_lines 4) 70) ≡ Ok 8 }
    ensures no_third { effect (ScrollUp 4) 1 (plain_view five_lines 8) 70 ≡ Err EndOfBuffer }
{}

/// Edits of a line: characters and letters that change, and a newline with its indentation.
pub fn edits_of_a_line()
    ensures transposed { let s = plain_view (codes "abc") 1 in
        outcome s (effect TransposeChars 1 s 70) ≡ Ok (text_and_point (codes "bac") 2) }
    ensures capitalized { let s = plain_view (codes "hELLO wORLD") 0 in
        outcome s (effect CapitalizeWord 1 s 70) ≡ Ok (text_and_point (codes "Hello wORLD") 5) }
    ensures indented { let s = plain_view (codes "  ab") 4 in
        outcome s (effect NewlineAndIndent 1 s 70)
        ≡ Ok (text_and_point (codes "  ab" ++ newline_character ∷ codes "  ") 7) }
    ensures indented_at_point { let s = plain_view (codes "  ab") 1 in
        outcome s (effect NewlineAndIndent 1 s 70)
        ≡ Ok (text_and_point (codes " " ++ newline_character ∷ codes "  ab") 3) }
{}

/// A text goes in at point, which then stands behind it. A range is replaced, and point is carried:
/// it stays before the range, moves with what stands behind, and else goes behind what is put.
pub fn texts_put_at_point_and_in_a_range()
    ensures inserted { let s = plain_view (codes "ad") 1 in
        outcome s (effect (InsertText (codes "bc")) 4 s 70) ≡ Ok (text_and_point (codes "abcd") 3) }
    ensures before_the_range { let s = plain_view (codes "abcd") 1 in
        outcome s (effect (ReplaceRange 1 4 (codes "x")) 1 s 70)
        ≡ Ok (text_and_point (codes "ax") 1) }
    ensures within_the_range { let s = plain_view (codes "abcd") 2 in
        outcome s (effect (ReplaceRange 1 3 (codes "xyz")) 1 s 70)
        ≡ Ok (text_and_point (codes "axyzd") 4) }
    ensures behind_the_range { let s = plain_view (codes "abcd") 3 in
        outcome s (effect (ReplaceRange 0 2 (codes "x")) 1 s 70)
        ≡ Ok (text_and_point (codes "xcd") 2) }
    ensures nothing { let s = plain_view (codes "abcd") 3 in
        effect (ReplaceRange 4 4 []) 1 s 70 ≡ Ok (motion s 3) }
    ensures beyond_the_text { let s = plain_view (codes "abcd") 3 in
        effect (ReplaceRange 3 5 (codes "x")) 1 s 70 ≡ Err EndOfBuffer }
    ensures ends_before_it_begins { let s = plain_view (codes "abcd") 3 in
        effect (ReplaceRange 3 2 (codes "x")) 1 s 70 ≡ Err EndOfBuffer }
{}

/// Kills, one behind the other, a copy that takes their place, and a yank of both.
pub fn kills_and_yanks()
    ensures region { let s = record (plain_view (codes "abcdef") 1) { mark = Some 4 } in
        effect KillRegion 1 s 70 ≡ Ok (kill_of s (splice 1 4 []) (codes "bcd")) }
    ensures line { let s = after_kill (plain_view (codes "aef") 1) (codes "bcd") in
        effect KillLine 1 s 70 ≡ Ok (kill_of s (splice 1 3 []) (codes "ef")) }
    ensures joined { let s = after_kill (plain_view (codes "aef") 1) (codes "bcd") in
        kill_buffer s (effect KillLine 1 s 70) ≡ Ok (codes "bcdef") }
    ensures copied { let s = after_kill (plain_view (codes "aef") 1) (codes "bcd") in
        let t = record s { mark = Some 3 } in
        kill_buffer t (effect CopyRegionAsKill 1 t 70) ≡ Ok (codes "ef") }
    ensures yank { let s = record (plain_view (codes "a") 1) { kill = codes "bcdef" } in
        effect Yank 1 s 70
        ≡ Ok (record (motion s 6) { splices = splice 1 1 (codes "bcdef") ∷ []; mark = Some 1 }) }
{}

/// Searches, replacements and filling.
pub fn searches_replacements_and_filling()
    ensures first { let s = plain_view (codes "Foo bar foo") 0 in
        search_forward (codes "foo") 0 s ≡ Ok (motion s 3) }
    ensures second { let s = plain_view (codes "Foo bar foo") 0 in
        search_forward (codes "foo") 1 s ≡ Ok (motion s 11) }
    ensures no_third { search_forward (codes "foo") 9 (plain_view (codes "Foo bar foo") 0)
        ≡ Err SearchFailed }
    ensures back { let s = plain_view (codes "Foo bar foo") 7 in
        search_backward (codes "foo") 7 s ≡ Ok (motion s 0) }
    ensures empty { let s = plain_view (codes "Foo bar foo") 3 in
        search_backward [] 7 s ≡ Ok (motion s 7) }
    ensures replaced { let s = plain_view (codes "a-a-a") 1 in
        outcome s (replace_all (codes "a") (codes "bb") s)
        ≡ Ok (text_and_point (codes "bb-bb-bb") 8) }
    ensures filled { let s = plain_view (codes "aa bb cc dd") 11 in
        fill_paragraph 10 s ≡ edit_effect s (splice 8 9 (newline_character ∷ []) ∷ []) }
    ensures filled_up { let s = plain_view (codes "  aa  bb" ++ newline_character ∷ codes "cc") 0 in
        fill_paragraph 10 s ≡ edit_effect s
        (splice 8 9 (codes " ") ∷ splice 4 6 (codes " ") ∷ splice 0 2 [] ∷ []) }
{}
