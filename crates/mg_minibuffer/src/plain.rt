//! Steps where no prompt is open.
ghost use Rattle.std.specs.Prelude.{◌≡◌, []};
ghost use Rattle.mg_keys.specs.declared.step.Step.TheVariants.{Ask, Edge};
ghost use Rattle.mg_minibuffer.specs.PlainStep as spec;

use crate::ending::{Action, Arrangement, Ending, Next, Request, ending_of};
use crate::message::Message;
use crate::prompt::{Asked, Prompt, Search};
use crate::scene::Scene;
use mg_keys::{Question, Step, WindowCommand};
use mg_plain::{Chars, Command, Direction};
use std::alloc::Global;

/// An action, with the prompt as it is and no message.
pub(crate) fn does(action: Action) -> Ending
    ensures { result ≡ spec.does action }
{
    ending_of(action, Next::Same, Message::Nothing)
}

/// A prompt that opens, with no message.
fn opens(action: Action, prompt: Prompt) -> Ending
    ensures { result ≡ spec.opens action prompt }
{
    ending_of(action, Next::Open(prompt), Message::Nothing)
}

/// A request, behind the end of a run of commands.
pub(crate) fn asks_for(request: Request) -> Ending
    ensures { result ≡ spec.asks_for request }
{
    Ending {
        request,
        ..does(Action::EndRun)
    }
}

fn line(alloc: Global, asked: Asked) -> Prompt
    ensures { result ≡ Prompt.Line asked [] }
{
    Prompt::Line {
        asked,
        answer: Chars::new(alloc),
    }
}

fn search(alloc: Global, origin: usize, direction: Direction) -> Prompt
    ensures { result ≡ spec.begun origin direction }
{
    Prompt::Searching(Search {
        origin,
        direction,
        pattern: Chars::new(alloc),
        found: None,
    })
}

fn question_step(alloc: Global, question: Question, scene: &Scene<'_>) -> Ending
    ensures { result ≡ spec.plain_step (Ask question) scene.now }
{
    match question {
        Question::Extended => opens(Action::Nothing, line(alloc, Asked::Command)),
        Question::Replace => opens(Action::Nothing, line(alloc, Asked::Pattern)),
        Question::Forward => opens(
            Action::Nothing,
            search(alloc, scene.point, Direction::Forward),
        ),
        Question::Backward => opens(
            Action::Nothing,
            search(alloc, scene.point, Direction::Backward),
        ),
        Question::Save => asks_for(Request::Save),
        Question::Undo => does(Action::Undo),
        Question::Quit if scene.changed => opens(Action::EndRun, Prompt::Quitting),
        Question::Quit => asks_for(Request::Quit),
        Question::Find => opens(Action::EndRun, line(alloc, Asked::Find)),
        Question::Switch => opens(Action::EndRun, line(alloc, Asked::Switch)),
        Question::Kill => opens(Action::EndRun, line(alloc, Asked::Kill)),
    }
}

fn window_step(command: WindowCommand, scene: &Scene<'_>) -> Ending
    ensures { result ≡ spec.plain_step (Edge command) scene.now }
{
    let rows = scene.rows;
    does(match command {
        WindowCommand::ScrollUp => Action::Run(Command::ScrollUp { rows }, 1),
        WindowCommand::ScrollDown => Action::Run(Command::ScrollDown { rows }, 1),
        WindowCommand::Split => Action::Arrange(Arrangement::Split),
        WindowCommand::Remove => Action::Arrange(Arrangement::Remove),
        WindowCommand::Only => Action::Arrange(Arrangement::Only),
        WindowCommand::Other => Action::Arrange(Arrangement::Other),
        WindowCommand::Recenter => Action::Arrange(Arrangement::Recenter),
    })
}

/// What a step leads to where no prompt is open: a command is run, a scroll runs with the text rows
/// of the current window, a question opens its prompt. Takes no memory.
pub fn plain_step(alloc: Global, step: Step, scene: &Scene<'_>) -> Ending
    ensures { result ≡ spec.plain_step step scene.now }
{
    match step {
        Step::Run(command, argument) => does(Action::Run(command, argument)),
        Step::Ask(question) => question_step(alloc, question, scene),
        Step::Edge(command) => window_step(command, scene),
        // A byte that left a search and waits for more.
        Step::Pending => does(Action::Nothing),
        Step::Cancel => ending_of(Action::EndRun, Next::Same, Message::Quit),
        _ => ending_of(Action::EndRun, Next::Same, Message::UndefinedKey),
    }
}
