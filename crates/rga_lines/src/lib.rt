//! Operations as lines of JSON, and streams as lines.
//!
//! A log or an exchange is a stream of bytes with an operation, or a run of them, a line, each a
//! JSON object (RFC 8259) of a few members; an exchange has a line more in front, its head, which
//! may be absent, and one that ends it. This crate says what a value of JSON is as a line
//! (`line_of`; `two_numbers`, `parent_of` and `characters` of its parts), and what the bytes of a line mean (`read_any`, `read_line`; `read_insertions` and
//! `read_deletion` of what a log has most); a run tells the operations that it stands for (`Run`,
//! `DeletionRun`). It writes lines (`Speller`, `write_line`, `write_run`, `write_deletion_run`,
//! `write_head`, `write_end`), puts bytes among others (`bytes`), and cuts a stream into its lines
//! in whatever pieces it comes (`Splitter`). It stands on `rga_ops` for the operations, on
//! `serde_json` and `json` for the JSON, on `itoa` for the digits and on `memchr` for the ends of
//! lines.
//!
//! The layer above may rest on the table of `specs/Table.antt`, which each line meets or is at
//! fault by; on the operations of a run, in `specs/Runs.antt`; on `parts`, by which identifiers are
//! known wherever they stand; on the one spelling of what is written, in `specs/Spelling.antt`; on
//! the lines and the rest of a stream in `specs/Stream.antt`, which are the same however it was cut;
//! and on the theorems of `laws`, each the contract of a function with no body, so that the check
//! proves it.
#![tactic(auto)]

pub mod bytes;
mod deletion_run;
mod fault;
mod hundred;
pub mod laws;
mod line;
pub mod parts;
mod pieces;
mod reading;
mod run;
mod spelled;
mod spelled_parts;
mod speller;
mod splitter;
mod values;
mod writing;

pub use deletion_run::DeletionRun;
pub use fault::{LineFault, of_json};
pub use line::{Line, MAX_LINE};
pub use reading::{read_any, read_line};
pub use run::{MAX_RUN, Run};
pub use spelled::{read_deletion, read_insertions};
pub use speller::{LINE_ROOM, Speller};
pub use splitter::Splitter;
pub use values::{characters, line_of, parent_of, two_numbers};
pub use writing::{write_deletion_run, write_end, write_head, write_line, write_run};
