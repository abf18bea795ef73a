//! Keys of the editor: bytes become steps.
//!
//! `Keys` reads one byte after another, by the table of keys in mg(1) and by what stands open: a
//! prompt, a search, a question while matches are replaced. A step is what a whole key sequence
//! asks of the editor. The crate stands on mg_plain, whose commands most of them run. The layer
//! above may rest on one definition over whole lists of bytes (`meaning`): `feed` answers by it
//! whatever was fed before; no call takes memory, and none fails. The laws say that what is read as
//! a character is UTF-8, and which arguments keys give.
#![tactic(auto)]

mod argument;
mod bytes;
mod command;
mod keys;
pub mod laws;
mod names;
mod plain;
mod prompts;
mod sequence;
mod step;
mod table;
mod utf8;

pub use argument::MAX_ARGUMENT;
pub use command::KeyCommand;
pub use keys::Keys;
pub use names::{NamedCommand, named};
pub use step::{Answer, Mode, Question, Step, WindowCommand};
