//! Steps while a line of text is asked for, or whether to quit.
ghost use Rattle.std.specs.Prelude.{◌≡◌, IfOk};
ghost use Rattle.mg_minibuffer.specs.Endings as endings;
ghost use Rattle.mg_minibuffer.specs.LineStep as spec;

use crate::answers::{rubbed, typed};
use crate::ending::{
    Action, Ending, Next, Reaction, Request, closing, ending_of, idles, shows, unbound,
};
use crate::message::Message;
use crate::plain::{asks_for, does, plain_step};
use crate::prompt::{Asked, Prompt};
use crate::replacing::asks_replacement;
use crate::scene::Scene;
use mg_keys::{NamedCommand, Step, named};
use mg_plain::Chars;
use std::alloc::{AllocError, Global};

fn asks_on(asked: Asked, answer: Chars) -> Reaction
    ensures { result ≡ spec.asks_on asked answer }
{
    shows(Next::Open(Prompt::Line { asked, answer }), Message::Nothing)
}

/// A command that was named: what its keys lead to with the argument 1. No key is bound to those of
/// replicas, each of which ends a run of commands and is requested.
fn named_step(alloc: Global, command: NamedCommand, scene: &Scene<'_>) -> Ending
    ensures { result ≡ spec.named_step command scene.now }
{
    match command {
        NamedCommand::Key(key) => plain_step(alloc, key.step(1), scene),
        NamedCommand::ReplicaExchange => asks_for(Request::Exchange),
        NamedCommand::ReplicaServe => asks_for(Request::Serve),
    }
}

/// The prompt closes, whatever comes of the action.
fn closes(action: Action) -> Reaction
    ensures { result ≡ spec.closes action }
{
    Reaction::Ends(closing(does(action)))
}

fn accepted(
    alloc: Global,
    asked: Asked,
    answer: &[char],
    scene: &Scene<'_>,
) -> Result<Reaction, AllocError>
    ensures { IfOk result (λ reaction. reaction ≡ spec.accepted asked answer.now scene.now) }
{
    match asked {
        Asked::Command => Ok(match named(answer) {
            Some(command) => Reaction::Ends(closing(named_step(alloc, command, scene))),
            None => shows(Next::Closed, Message::NoSuchCommand),
        }),
        Asked::Pattern => asks_replacement(alloc, answer, Chars::new(alloc)),
        // Without a name no buffer is asked for.
        Asked::Find if answer.is_empty() => Ok(shows(Next::Closed, Message::Nothing)),
        Asked::Find => Ok(requests(Request::Find(Chars::from_slice(alloc, answer)?))),
        Asked::Switch => Ok(closes(Action::Switch(Chars::from_slice(alloc, answer)?))),
        Asked::Kill => Ok(closes(Action::Kill(Chars::from_slice(alloc, answer)?))),
    }
}

/// What a step leads to while a line of text is asked for.
pub(crate) fn line_step(
    alloc: Global,
    asked: Asked,
    answer: &[char],
    step: &Step,
    scene: &Scene<'_>,
) -> Result<Reaction, AllocError>
    ensures { let due = spec.line_prompt_step asked answer.now step.now scene.now in
        IfOk result (λ reaction. reaction ≡ due) }
{
    match step {
        Step::Text(ch) => Ok(asks_on(asked, typed(alloc, answer, *ch)?)),
        Step::Rub => Ok(asks_on(asked, rubbed(alloc, answer)?)),
        Step::Accept => accepted(alloc, asked, answer, scene),
        Step::Cancel => Ok(idles(Next::Closed, Message::Quit)),
        _ => Ok(unbound()),
    }
}

/// The prompt closes, and that is requested.
fn requests(request: Request) -> Reaction
    ensures { result ≡ spec.requests request }
{
    Reaction::Ends(Ending {
        request,
        ..ending_of(Action::Nothing, Next::Closed, Message::Nothing)
    })
}

/// What a step leads to while it is asked whether to quit: `y` quits, and any other step ends the
/// question.
pub(crate) fn quit_step(step: &Step) -> Reaction
    ensures { result ≡ spec.quit_step step.now }
{
    match step {
        Step::Text('y') => requests(Request::Quit),
        Step::Cancel => idles(Next::Closed, Message::Quit),
        Step::Unbound => idles(Next::Closed, Message::UndefinedKey),
        _ => shows(Next::Closed, Message::Nothing),
    }
}
