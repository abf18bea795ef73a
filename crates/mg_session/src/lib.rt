//! A whole session: from the bytes of the keys to the rows of frames.
//!
//! `run_keys` loads a buffer, presses each byte of the keys, carries each request to a port, and
//! writes frames to a screen, be these files or memory. The crate stands on mg_editor for the
//! editor, on mg_files for ports, and on rga_exchange for devices whose calls are counted. The
//! program above may rest on its contract: which keys a session takes, in turn, and exactly what
//! they show, for any reader and screen that tell their bytes and any port that tells its calls;
//! that each session ends; and on its faults, a device's being answered exactly where a call of it
//! failed. A session of another kind is begun by `open`, reads its keys by `read_block`, presses a
//! key by `press`, writes by `push_rows` and `write_bytes`, and is answered by `session_answer`.
#![tactic(auto)]

mod course;
mod display;
mod fault;
mod keys;
mod opening;
mod session;

pub use course::{Course, course_answer, is_on, session_answer};
pub use display::{push_rows, write_bytes};
pub use fault::SessionFault;
pub use keys::{course_behind, press};
pub use opening::open;
pub use session::{is_strict, read_block, run_keys};
