//! What steps lead to.
ghost use Rattle.std.specs.Prelude.{◌≡◌};
ghost use Rattle.mg_minibuffer.specs.Endings as spec;

use crate::message::Message;
use crate::prompt::Prompt;
use mg_plain::{Chars, Command};

/// A change of the windows.
#[derive(Clone, Copy)]
pub enum Arrangement {
    Split,
    Remove,
    Only,
    Other,
    Recenter,
}

/// What is done first.
#[derive(Drop)]
pub enum Action {
    /// Nothing.
    Nothing,
    /// The current buffer is told that a run of commands ends.
    EndRun,
    /// The current buffer runs a command with its argument.
    Run(Command, u16),
    /// The current buffer undoes.
    Undo,
    /// The windows change, and a run of commands ends.
    Arrange(Arrangement),
    /// The buffer of that name is current; where none is named, the next one.
    Switch(Chars),
    /// The buffer of that name is removed; where none is named, the current one.
    Kill(Chars),
}

/// The prompt behind a step.
#[derive(Drop)]
pub enum Next {
    /// It is the one before.
    Same,
    Closed,
    Open(Prompt),
}

/// What is asked of the files and of peers.
#[derive(Drop)]
pub enum Request {
    /// Nothing.
    Idle,
    /// That the current buffer be saved.
    Save,
    /// The buffer of that name, which is not empty: that it be opened, unless it is open.
    Find(Chars),
    /// That the current buffer and the peer that waits exchange what they hold.
    Exchange,
    /// That the current buffer wait for a peer to exchange with.
    Serve,
    /// That the session end.
    Quit,
}

/// What is done, and what follows: the prompt, the message and the request where it is done, and the
/// prompt where it is refused. Want of memory leaves the prompt as it is.
#[derive(Drop)]
pub struct Ending {
    pub action: Action,
    pub next: Next,
    pub message: Message,
    pub request: Request,
    pub refused: Next,
}

/// What a step leads to at an open prompt.
#[derive(Drop)]
pub enum Reaction {
    Ends(Ending),
    /// The match at point is replaced, and then the next one is looked for.
    Replaces {
        pattern: Chars,
        put: Chars,
        count: usize,
    },
    /// The search closes, and its pattern, unless it is empty, is the last one accepted.
    Accepts,
}

/// An ending that requests nothing. Where its action is refused the prompt stays.
pub(crate) fn ending_of(action: Action, next: Next, message: Message) -> Ending
    ensures { result ≡ spec.ending_of action next message }
{
    Ending {
        action,
        next,
        message,
        request: Request::Idle,
        refused: Next::Same,
    }
}

/// Nothing is done.
pub(crate) fn shows(next: Next, message: Message) -> Reaction
    ensures { result ≡ spec.shows next message }
{
    Reaction::Ends(ending_of(Action::Nothing, next, message))
}

/// A run of commands ends.
pub(crate) fn idles(next: Next, message: Message) -> Reaction
    ensures { result ≡ spec.idles next message }
{
    Reaction::Ends(ending_of(Action::EndRun, next, message))
}

/// A command is run, with the argument 1.
pub(crate) fn runs(command: Command, next: Next, message: Message) -> Reaction
    ensures { result ≡ spec.runs command next message }
{
    Reaction::Ends(ending_of(Action::Run(command, 1), next, message))
}

/// A key that means nothing at the open prompt, which stays.
pub(crate) fn unbound() -> Reaction
    ensures { result ≡ spec.unbound }
{
    idles(Next::Same, Message::UndefinedKey)
}

/// An ending behind which the prompt that was open is closed, whatever comes of it.
pub(crate) fn closing(ending: Ending) -> Ending
    ensures { result ≡ spec.closing ending }
{
    Ending {
        action: ending.action,
        next: or_closed(ending.next),
        message: ending.message,
        request: ending.request,
        refused: Next::Closed,
    }
}

fn or_closed(next: Next) -> Next
    ensures { result ≡ spec.or_closed next }
{
    match next {
        Next::Open(prompt) => Next::Open(prompt),
        Next::Same | Next::Closed => Next::Closed,
    }
}
