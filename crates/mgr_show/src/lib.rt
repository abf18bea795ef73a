//! What logs make: their text, as `mgr show` writes it, a log in fewer lines, as `mgr compact`
//! does, the join of logs, as `mgr join` does; what stands in the log of a note and who wrote its
//! text, as `mgr log` and `mgr who` write it; and what it has and claims lack, as `mgr claims` and
//! `mgr missing` do.
//!
//! `show_ops` reads operation lines to the end of a reader and writes their text; `compact_log`
//! reads them so, and writes a log that stands for the same content. All others read files by their
//! names (`Sources`): `show_note` writes the text of a log, or of its first lines, `join_logs` a log
//! that stands for the content of all, `write_authors` the text in pieces or lines with the replicas
//! that wrote them, `write_numbers` what is counted, `write_claims` a head and the summary of what
//! the log holds, a claim a line, and `write_missing` the operations that such claims lack, as the
//! lines of a log: so a pipe of any kind is an exchange. `take_but_torn` serves other commands that
//! read a log.
//!
//! The crate stands on rga_exchange for the reading and the writing of logs, on rga_records and
//! rga_flat for what takes the operations, and on rga_brief for summaries and claims. The program
//! above may rest on the contracts, for any reader, writer and source that tell their bytes: what is
//! written is that of the operations of accepted logs, or a beginning of it where a device fails,
//! and nothing where the input is refused, of which the first fault is answered; and on `laws`:
//! which logs are joined, and that their order and repeats do not matter, what pieces, lines and the
//! numbers of a replica are in other words than those by which they are found, and that, if digests
//! tell blocks apart, who takes what is missing holds what it would hold after the whole log.
#![tactic(auto)]

mod authors;
mod claims;
mod compact;
mod counts;
mod fault;
mod join;
pub mod laws;
mod lines;
mod log;
mod missing;
mod note;
mod numbers;
mod pieces;
mod show;
mod sources;
mod stored;
mod tallies;
mod told;
mod who;

pub use claims::write_claims;
pub use compact::compact_log;
pub use fault::{JoinFault, MissingFault, ShowFault};
pub use join::join_logs;
pub use log::write_numbers;
pub use missing::write_missing;
pub use note::{show_note, take_but_torn};
pub use show::{show_ops, write_text};
pub use sources::Sources;
pub use who::write_authors;
