//! The log of a note, written anew: a damaged one mended, a long one compacted; and with what other
//! logs have, merged.
//!
//! A log is refused if a line is no operation, or if an identifier has two insertions that differ.
//! `mend_log` keeps what can be kept of such a log: the lines that are operations, and of
//! insertions that differ the one with the least line, so that all who mend logs with the same
//! operations keep the same. It also gives back what it left out. `mend_for_note` leaves out, too, each
//! line for which a note has no room, so that what stays is read. `mend_note` does so with the log of a
//! note: what is left out is kept beside it before the mended log gets its name, as mgr_port does that.
//! `compact_note` gives the log of a note what `compact_log` of mgr_show writes of it, in the same way.
//!
//! `merge_logs` loads a note, takes the operations of logs, and writes it; `put_note` loads it and
//! puts its text.
//!
//! The layer above may rest on the contracts, for any `Logs` that tell what stands under a name, and
//! for any store, port and sources. With `Ok` of a merge the calls of the port are those of a load,
//! and of a save of what was loaded with all operations of the logs; a log that is refused leaves
//! the note as it is. It may rest on the laws (`laws`) of mended logs, that a stop of the machine
//! leaves the old log or the new one, and loses no content, and that the log of a note stands for
//! the join after a merge.
#![tactic(auto)]

mod compaction;
mod fate;
mod fault;
mod fitting;
mod guards;
mod judging;
pub mod laws;
mod loading;
mod mended;
mod merge;
mod merged;
mod note;
mod reading;
mod taking;
mod text;
mod writing;

pub use compaction::compact_note;
pub use fault::MergeFault;
pub use fitting::mend_for_note;
pub use mended::{LeftOut, Mended, mend_log};
pub use merge::{merge_logs, put_note};
pub use merged::{Merged, Torn};
pub use note::mend_note;
