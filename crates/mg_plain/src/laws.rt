//! Theorems about what commands do.
//!
//! Each function does nothing: its contract is a theorem over the definitions of `specs/`, which
//! the check proves like any other contract. The examples are theorems too: they are computed.
mod effects;
mod examples;
mod filling;
mod places;
mod searches;
mod text;

pub use effects::{case_keeps_the_length, effects_stay_within_the_text, kills_keep_what_they_take};
pub use examples::{
    edits_of_a_line, kills_and_yanks, scrolls_over_five_lines, searches_replacements_and_filling,
    steps_over_words, texts_put_at_point_and_in_a_range, the_goal_stays_over_a_short_line,
};
pub use filling::filling_touches_no_word;
pub use places::places_in_words;
pub use searches::searches_in_words;
pub use text::{
    filling_makes_the_layout, scans_find_the_least_and_the_greatest, words_are_the_greatest_runs,
};
