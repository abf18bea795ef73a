//! What an editor works on: buffers of which one is current, and windows over them.
//!
//! A `Workspace` does the actions that steps lead to: the current buffer runs a command or undoes,
//! or the windows change; it lends the current buffer, tells what a step is decided from, and
//! places and shows the windows for a frame. Of an action that is refused it tells the cause; keys,
//! prompts and messages are above, as are files and peers. The crate stands on mg_buffer for
//! buffers, on mg_minibuffer for actions, on mg_screen for windows, and is generic over any
//! `TextStore`. The layer above may rest on `Done`: what each action leaves of the buffers and the
//! windows, and why it is refused; want of memory changes nothing; on `RunsAt` and
//! `with_operations_at`: the same of a command in the buffer at an index, and of operations that it
//! takes from elsewhere; and on `noted`: which saves and
//! exchanges failed and still stand, and which of them is the first.
#![tactic(auto)]

mod actions;
mod arranging;
mod at_index;
mod buffers;
mod choosing;
mod contents;
mod failures;
mod fault;
mod showing;
mod viewport;
mod workspace;

pub use failures::{Failure, Task};
pub use fault::{ActionFault, Cause};
pub use viewport::Viewport;
pub use workspace::{MAX_BUFFERS, Workspace};
