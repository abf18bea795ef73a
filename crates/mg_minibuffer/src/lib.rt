//! What is talked with the user: the keys, the open prompt, the message, and what steps lead to.
//!
//! `plain_step` says what a step of the keys does where no prompt is open, `prompt_step` what it
//! does at an open one: a search, the questions of query-replace, a command's name, the name of a
//! buffer to open, to go to or to remove, whether to quit. `next_match` finds where query-replace
//! asks next. All three are decided from what is seen before anything is done, so that the action
//! they name is the last thing that can fail. A `Dialogue` takes bytes and answers steps, which it
//! reads as the open prompt wants them, shows the prompt and the message after a step, and makes
//! the text of the echo line. There is no buffer, no window and no file in sight, and nothing is
//! changed: an ending is a value. The crate stands on mg_plain for commands and matches, and on
//! mg_keys for steps. The layer above may rest on equations: one for each of the three functions,
//! and what each change makes of a dialogue (`shown`, `forgotten`, `accepted_search`) and what the
//! echo line says (`echo_text`); on a record of facts for a byte (`Fed`); and on the theorems of
//! `laws`.
#![tactic(auto)]

mod answers;
mod dialogue;
mod echo;
mod ending;
pub mod laws;
mod lines;
mod message;
mod plain;
mod prompt;
mod replacing;
mod scene;
mod searching;
mod steps;

pub use answers::MAX_ANSWER;
pub use dialogue::Dialogue;
pub use ending::{Action, Arrangement, Ending, Next, Reaction, Request};
pub use message::Message;
pub use plain::plain_step;
pub use prompt::{Asked, Prompt, Search};
pub use replacing::next_match;
pub use scene::Scene;
pub use steps::prompt_step;
