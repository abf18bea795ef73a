//! Steps of query-replace: what to replace a pattern by, and which of its matches.
ghost use Rattle.std.specs.Prelude.{◌≡◌, IfOk};
ghost use Rattle.mg_minibuffer.specs.ReplacementStep as spec;

use crate::answers::{rubbed, typed};
use crate::ending::{Action, Ending, Next, Reaction, ending_of, idles, runs, shows, unbound};
use crate::message::Message;
use crate::prompt::Prompt;
use crate::scene::Scene;
use mg_keys::{Answer, Step};
use mg_plain::{Chars, Command, Direction, Notice, count_matches, find};
use std::alloc::{AllocError, Global};

fn search(alloc: Global, pattern: &[char], start: usize) -> Result<Command, AllocError>
    ensures { IfOk result (λ command. command ≡ Command.SearchForward pattern.now start) }
{
    Ok(Command::SearchForward {
        pattern: Chars::from_slice(alloc, pattern)?,
        start,
    })
}

/// Point goes to the first match from point on, and it is asked about. Where there is none,
/// query-replace ends with the other message.
fn asks_or_ends(
    alloc: Global,
    pattern: &[char],
    put: &[char],
    count: usize,
    scene: &Scene<'_>,
    otherwise: Message,
) -> Result<Ending, AllocError>
    ensures { let due = spec.asks_or_ends pattern.now put.now count scene.now otherwise in
        IfOk result (λ ending. ending ≡ due) }
{
    match find(
        Direction::Forward,
        scene.text.as_slice(),
        pattern,
        scene.point,
    ) {
        Some(_) => Ok(ending_of(
            Action::Run(search(alloc, pattern, scene.point)?, 1),
            Next::Open(Prompt::Replacing {
                pattern: Chars::from_slice(alloc, pattern)?,
                put: Chars::from_slice(alloc, put)?,
                count,
            }),
            Message::Nothing,
        )),
        None => Ok(ending_of(Action::Nothing, Next::Closed, otherwise)),
    }
}

/// The next match, once so many were replaced, or the end of query-replace. The only fault is want
/// of memory.
pub fn next_match(
    alloc: Global,
    pattern: &[char],
    put: &[char],
    count: usize,
    scene: &Scene<'_>,
) -> Result<Ending, AllocError>
    ensures { let due = spec.asks_at_next_match pattern.now put.now count scene.now in
        IfOk result (λ ending. ending ≡ due) }
{
    asks_or_ends(alloc, pattern, put, count, scene, Message::Replaced(count))
}

/// What the matches of a pattern are replaced by is asked for.
pub(crate) fn asks_replacement(
    alloc: Global,
    pattern: &[char],
    answer: Chars,
) -> Result<Reaction, AllocError>
    ensures { IfOk result (λ reaction. reaction ≡ spec.asks_replacement pattern.now answer) }
{
    let pattern = Chars::from_slice(alloc, pattern)?;
    let prompt = Prompt::Replacement { pattern, answer };
    Ok(shows(Next::Open(prompt), Message::Nothing))
}

/// What a step leads to while the replacement is asked for.
pub(crate) fn replacement_step(
    alloc: Global,
    pattern: &[char],
    answer: &[char],
    step: &Step,
    scene: &Scene<'_>,
) -> Result<Reaction, AllocError>
    ensures { let due = spec.replacement_step pattern.now answer.now step.now scene.now in
        IfOk result (λ reaction. reaction ≡ due) }
{
    let failed = Message::Refused(Notice::SearchFailed);
    match step {
        Step::Text(ch) => asks_replacement(alloc, pattern, typed(alloc, answer, *ch)?),
        Step::Rub => asks_replacement(alloc, pattern, rubbed(alloc, answer)?),
        // An empty pattern has no match.
        Step::Accept if pattern.is_empty() => Ok(shows(Next::Closed, failed)),
        Step::Accept => Ok(Reaction::Ends(asks_or_ends(alloc, pattern, answer, 0, scene, failed)?)),
        Step::Cancel => Ok(idles(Next::Closed, Message::Quit)),
        _ => Ok(unbound()),
    }
}

/// The match at point and all that follow are replaced, in one command.
fn replaces_all(
    alloc: Global,
    pattern: &[char],
    put: &[char],
    count: usize,
    scene: &Scene<'_>,
) -> Result<Reaction, AllocError>
    ensures { let due = spec.replaces_all pattern.now put.now count scene.now in
        IfOk result (λ reaction. reaction ≡ due) }
{
    let followers = count_matches(scene.text.as_slice(), pattern, scene.point);
    let count = count.saturating_add(1).saturating_add(followers);
    let command = Command::ReplaceAll {
        pattern: Chars::from_slice(alloc, pattern)?,
        put: Chars::from_slice(alloc, put)?,
    };
    Ok(runs(command, Next::Closed, Message::Replaced(count)))
}

/// What a step leads to while it is asked which matches to replace.
pub(crate) fn replacing_step(
    alloc: Global,
    pattern: &[char],
    put: &[char],
    count: usize,
    step: &Step,
    scene: &Scene<'_>,
) -> Result<Reaction, AllocError>
    ensures { let due = spec.replacing_step pattern.now put.now count step.now scene.now in
        IfOk result (λ reaction. reaction ≡ due) }
{
    match step {
        Step::Answer(Answer::Yes) => Ok(Reaction::Replaces {
            pattern: Chars::from_slice(alloc, pattern)?,
            put: Chars::from_slice(alloc, put)?,
            count,
        }),
        Step::Answer(Answer::No) => Ok(Reaction::Ends(next_match(
            alloc, pattern, put, count, scene,
        )?)),
        Step::Answer(Answer::All) => replaces_all(alloc, pattern, put, count, scene),
        Step::Answer(Answer::Quit) => Ok(shows(Next::Closed, Message::Replaced(count))),
        Step::Cancel => Ok(idles(Next::Closed, Message::Quit)),
        _ => Ok(unbound()),
    }
}
