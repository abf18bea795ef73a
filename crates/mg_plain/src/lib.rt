//! The commands of the editor, on a plain text.
//!
//! `plan` says what each command of mg(1) does to a text: which splices it makes, where point and
//! mark go, what the kill buffer becomes; or the notice that is given instead. There is no replica,
//! no key and no screen in sight, and nothing is changed: a plan is a value. Lines, paragraphs and
//! the splices that fill one are here too. The crate stands on rga_ops, for the splices alone. The
//! layer above may rest on one equation: what `plan` answers is the `effect` of the command, a
//! total function with one line a command, want of memory aside, which comes last. Lines and
//! paragraphs begin and end where the scans of `specs/` say. The laws say in words what that comes
//! to: least and greatest places, filling that touches no word, splices that fall within the text.
#![tactic(auto)]

mod cases;
mod characters;
mod chars;
mod command;
mod edit;
mod gaps;
mod insertions;
mod kills;
pub mod laws;
mod line_ends;
mod mark;
mod matching;
mod motions;
mod outcome;
mod paragraphs;
mod planning;
mod replacement;
mod steps;
mod view;
mod words;

pub use chars::Chars;
pub use command::Command;
pub use edit::splice;
pub use gaps::paragraph_splices;
pub use line_ends::{line_begin, line_end};
pub use matching::{alike, count_matches, find};
pub use outcome::{Notice, Plan};
pub use planning::plan;
pub use rga_ops::Splice;
pub use steps::Direction;
pub use view::{Kind, View};
