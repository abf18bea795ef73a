//! The port of the program: buffers in files, and peers behind sockets of this machine.
//!
//! A buffer `NAME` has its text in the file `NAME` and its log in `NAME.ops`. The crate stands on
//! mg_files for what a port is, and on rga_exchange for devices that are counted. The layer above
//! may rest on the contracts of `Port`, and of `Logs` for a log that is written anew, where this
//! one tells no calls, no links and no steps: what files give and keep, and what a peer says, no
//! clause can name.
//!
//! What may be destroyed is decided over a `Folder`, a trait of steps, each a call of the system or
//! two. A path goes, or is given to another file, only as a `Spare`, which a look, a second name or a
//! copy makes, and only right behind these steps; lines are put behind a log only after it was looked
//! at; a new file (`Staged`) has its mode, its bytes and its date on the device before it gets its name.
//! That is proved for every folder, whatever other programs do in it; the machine's (`System`) tells
//! nothing, and is short. By these steps files are whole whenever the machine stops (`laws`), which is
//! tried with the built program.
#![tactic(auto)]

mod files;
mod folder;
mod keeping;
pub mod laws;
mod locking;
mod log;
mod logs;
mod names;
mod note;
mod notes;
mod patient;
mod port;
mod rewriting;
mod spare;
mod staged;
mod stamp;
mod system;
mod text;
mod vacating;

pub use folder::{Folder, Lock, Opening};
pub use keeping::{Keeping, keep, spare_for};
pub use locking::{open_locked, take_beside};
pub use log::{End, LeftLog};
pub use logs::Logs;
pub use port::FilePort;
pub use rewriting::OpenLog;
pub use spare::{Look, Owner, Reason, Spare, Standing};
pub use staged::{Named, Old, Staged, put_whole};
pub use stamp::{Stamp, Time};
pub use vacating::{give_free_name, make_way, remove_open};
