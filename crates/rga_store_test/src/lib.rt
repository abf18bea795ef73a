//! Tests of operations, of stores, of sequences and of summaries.
//!
//! Identifiers and operations at the edges of their ranges; the worked examples of `TreeStore` and
//! of `FlatStore`, of their elements by index and by place, and of what is asked of a store before
//! it takes anything; and each beside a plain list, searched from the front by whole root paths:
//! behind each of some seeded random operations both must answer and show the same. Seeded random
//! entries are put into a sequence and into a plain list, deleted and taken out again, and at each
//! step both must show the same, and the names of blocks must lead to where the entries stand.
#![tactic(auto)]

#[cfg(test)]
mod comparison;
#[cfg(test)]
mod kinds;
#[cfg(test)]
mod list_store;
#[cfg(test)]
mod merging;
#[cfg(test)]
mod new_operations;
#[cfg(test)]
mod operations;
#[cfg(test)]
mod places;
#[cfg(test)]
mod plain_list;
#[cfg(test)]
mod random;
#[cfg(test)]
mod sequences;
#[cfg(test)]
mod stores;
#[cfg(test)]
mod summaries;
#[cfg(test)]
mod whole_lists;
#[cfg(test)]
mod words;
