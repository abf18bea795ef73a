//! Buffers and their files, what a buffer is loaded from, and how it is saved; and buffers that meet
//! peers.
//!
//! A `Port` is where files are, and where peers are met. A buffer has two files under its name: a
//! log with its operations, and its text in UTF-8. The crate stands on mg_buffer for the buffers
//! that visit files, on rga_exchange and rga_lines for logs, on rga_store and rga_doc for texts, on
//! rga_brief for what passes over a link in short, and is generic over any `TextStore` and any port.
//! The layer above may rest on three functions of `specs/`: what is found under a name decides, by
//! `load_outcome`, what is loaded and why not; and what is to be written decides, by `save_calls` and
//! `saved`, which calls a save makes and what it leaves. Where a call fails, `SaveFailed` says what
//! was done before it. `log` is the first half of a save, and `LogsTo` says what it leaves.
//!
//! `exchange` is for the replica that connects to a peer, `serve` for the one that waits; both save
//! the buffer first, and save it again once they have heard the peer. If the exchanges of a buffer
//! are brief, both tell first what they know, and then send only what the other lacks. The layer
//! above may rest on one record of facts for both (`ExchangesOver`): how it ended, which calls were
//! made of the port up to there, and in which order; what was gained and what stayed, whatever was
//! answered (`Exchanges`, if nothing is said of links); and what passed over the one link that the
//! port opened.
//!
//! A port that keeps its files is one whose told calls lead from what it holds at first to what it
//! holds then (`MayLead`), each load answering what is there. A user may rest on `laws` that between
//! a load and any later one no word that was held is gone, whatever was refused meanwhile; and that,
//! over links that tell their bytes, two that meet hold one content, and whatever they tell each
//! other of what they know, each takes a part of what the other holds. By `writers` writers, each
//! with its own buffer and files, are sites of a world (rga_world).
#![tactic(auto)]

mod asking;
mod client;
mod fault;
pub mod laws;
mod lines;
mod loading;
mod port;
mod saving;
mod server;
mod talking;
pub mod writers;

pub use client::exchange;
pub use fault::{ExchangeFault, LoadFault};
pub use lines::{LogLines, MAX_SINGLE};
pub use loading::load;
pub use port::{CallKind, Found, LinkFault, Port, PortFault};
pub use saving::{log, save};
pub use server::serve;
pub use talking::Exchanged;
