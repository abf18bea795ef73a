//! A port in memory for tests: files by name, the calls that were made, and calls that fail; a disk
//! whose steps fail, and a log over one; a folder; files that are read.
//!
//! Only tests use this crate. It stands on mg_files, mgr_show and mgr_port; the layer above may
//! rest on the contracts of `Port`, `Folder`, `Logs` and `Sources`, by which they tell their
//! calls, steps and bytes, and for the rest on the comments.
#![tactic(auto)]

mod call;
mod disk;
mod files;
mod folder;
mod link;
mod logs;
mod port;
mod sources;

pub use call::MadeCall;
pub use disk::{MadeStep, MemoryDisk};
pub use files::{MemoryFiles, ToldStep};
pub use link::NoLink;
pub use logs::MemoryLogs;
pub use port::MemoryPort;
pub use sources::MemorySources;
