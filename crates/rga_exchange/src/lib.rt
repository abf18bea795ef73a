//! Replicas that meet: operations written as lines, kept in logs that survive a cut, and sent over
//! any reader and writer.
//!
//! A log is a stream of lines with an operation each, or a run of them; an exchange has one line
//! more in front, its head, which may be absent, and one that ends it and names the number of
//! operations. `append_log` and `send` write them, `append_runs` a log with runs, and `send_list`
//! an exchange of some operations; `read_log` and `receive` take them into whatever takes
//! operations, and `take_log` is the reader of logs within, which also tells how many lines there
//! were. Lines that are made elsewhere, as those of runs by `shortest_line`, are written by a
//! `Block`. `compact` and `compact_ops` write operations in as few lines as runs allow. A `Counted`
//! bounds what a device is asked and counts the calls that failed, and a `Fuse` has a device fail
//! from some call on. The crate stands on rga_lines for the lines, on the traits of rga_store for
//! what takes operations (`Taker`) and what has them (`TextStore`), and on rga_ops for what they
//! mean. The layer above may rest on the contracts, for any taker, any store and any device that
//! tells its bytes: however the reads cut the bytes, what is held afterwards is what was held
//! joined with the operations of the lines before the first fault, or before the end; what is
//! written is exactly the lines of the operations, or a beginning of them where a call fails; and
//! bytes that stand for a content still do so, for the joined one, once operations were appended
//! (`laws`).
#![tactic(auto)]

mod block;
mod compacting;
mod counted;
mod fault;
mod finding;
mod fuse;
pub mod laws;
mod log;
mod receiving;
mod runs;
mod sending;
mod taking;

pub use block::{BLOCK, Block};
pub use compacting::{compact, compact_ops};
pub use counted::{Counted, MAX_CALLS};
pub use fault::{LogFault, ReceiveFault, SendFault};
pub use fuse::Fuse;
pub use log::{LogEnd, LogRead, read_log, take_log};
pub use receiving::receive;
pub use runs::{append_runs, shortest_line};
pub use sending::{append_log, send, send_list};
pub use taking::Form;
