//! Tests of documents, of worlds and of buffers over a `TreeStore`.
//!
//! Worked examples; and long mixtures of edits and of commands, against the text of the store and
//! against a plain text. Nothing stands on this crate, so nothing waits for its proof.
#![tactic(auto)]

#[cfg(test)]
mod anchors;
#[cfg(test)]
mod documents;
#[cfg(test)]
mod following;
#[cfg(test)]
mod listing;
#[cfg(test)]
mod lists;
#[cfg(test)]
mod local_edits;
#[cfg(test)]
mod merging;
#[cfg(test)]
mod mixtures;
#[cfg(test)]
mod reverts;
#[cfg(test)]
mod sessions;
#[cfg(test)]
mod steps;
#[cfg(test)]
mod taking;
#[cfg(test)]
mod worlds;
