//! A live session: operations of others among the keys, own ones saved as they are typed and then
//! told.
//!
//! `run_live` loads a buffer, takes keys and reports, block by block, and writes after each block a
//! status and the frame. Then what was made is logged, and after a second status it is told. The
//! crate stands on mg_events for keys, reports and statuses, on mg_editor for the editor, on
//! mg_session for keys and courses, on mg_files for ports, on rga_exchange for devices whose calls
//! are counted, on rga_doc for the text that was told last, and its laws on mg_files.
//! The layer above may rest on `IsLiveSession`: which keys and reports are taken, in turn, what
//! each leaves, what is written to the screen, which calls of the port the ends of blocks add, and
//! how many fail. It may rest on the theorems of `laws` too: what is told is in the log, and each
//! open buffer goes by the steps of mg_files; and on those of `together`: writers in live sessions
//! who are given what others told never conflict, and show one text.
#![tactic(auto)]

mod blocks;
mod changes;
mod changing;
mod fault;
mod finishing;
mod gathered;
mod keys;
pub mod laws;
mod live;
mod made;
mod opening;
mod others;
mod picture;
mod pieces;
mod reports;
mod session;
mod shown;
mod taking;
mod tally;
mod telling;
pub mod together;

pub use fault::ReportFault;
pub use session::run_live;
