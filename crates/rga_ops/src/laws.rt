//! Theorems about contents, paths and lists of operations.
//!
//! Each function does nothing: its contract is a theorem over the definitions of `specs/`, which
//! the check proves like any other contract.
mod content;
mod identifiers;
mod order;
mod places;
mod taking;

pub use content::{
    a_content_is_that_of_its_operations, content_is_what_the_list_has,
    join_is_the_least_upper_bound, same_operations_show_the_same_text,
    the_clock_is_the_greatest_counter,
};
pub use identifiers::identifiers_are_ordered_by_counter_and_replica;
pub use order::{
    a_deletion_moves_nothing, an_insertion_goes_to_its_place, elements_are_in_one_order,
    elements_stand_in_the_order_or_wait, functions_say_what_the_relations_say,
    path_order_is_strict_and_total, places_in_words, the_order_is_for_good,
    the_text_is_of_the_visible_elements, there_is_one_order_list,
};
pub use places::{a_deletion_cuts_one_element_or_none, an_insertion_shows_one_element_or_none};
pub use taking::{
    answers_in_words, answers_to_a_list_in_words, merging_in_words, new_operations_in_words,
    replicas_that_took_the_same_hold_the_same, taking_one_by_one_leads_to_the_content,
};
