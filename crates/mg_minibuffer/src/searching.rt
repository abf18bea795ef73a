//! Steps of a search whose pattern is typed.
ghost use Rattle.std.specs.Prelude.{◌≡◌, [], IfOk};
ghost use Rattle.mg_plain.specs.declared.command.Command.TheVariants.{SearchForward};
ghost use Rattle.mg_minibuffer.specs.Endings as endings;
ghost use Rattle.mg_minibuffer.specs.SearchStep as spec;
ghost use Rattle.mg_minibuffer.specs.Typing as typing;

use crate::answers::{MAX_ANSWER, rubbed, typed};
use crate::ending::{Next, Reaction, runs, shows, unbound};
use crate::message::Message;
use crate::prompt::{Prompt, Search};
use mg_keys::Step;
use mg_plain::{Chars, Command, Direction, Notice, find};
use std::alloc::{AllocError, Global};

/// Where a search without a match begins: at its origin, or backward just before it.
fn from_origin(search: &Search) -> Option<usize>
    ensures { result ≡ spec.from_origin search.now }
{
    match search.direction {
        Direction::Forward => Some(search.origin),
        Direction::Backward => search.origin.checked_sub(1),
    }
}

/// Where the search for the next match begins, if there is a pattern.
fn past_match(search: &Search) -> Option<usize>
    ensures { result ≡ spec.past_match search.now }
{
    if search.pattern.as_slice().is_empty() {
        return None;
    }
    match search.found {
        Some(i) => match search.direction {
            Direction::Forward => i.checked_add(1),
            Direction::Backward => i.checked_sub(1),
        },
        None => from_origin(search),
    }
}

/// Point goes to a match that is found from the start on.
fn goes_to(alloc: Global, search: Search, start: usize, i: usize) -> Result<Reaction, AllocError>
    ensures { IfOk result (λ reaction. reaction ≡ spec.goes_to search start i) }
{
    let pattern = Chars::from_slice(alloc, search.pattern.as_slice())?;
    let command = match search.direction {
        Direction::Forward => Command::SearchForward { pattern, start },
        Direction::Backward => Command::SearchBackward { pattern, start },
    };
    let found = Search {
        found: Some(i),
        ..search
    };
    let prompt = Prompt::Searching(found);
    Ok(runs(command, Next::Open(prompt), Message::Nothing))
}

/// The match that a search finds from a place, if there is one, behind that place.
fn sought(text: &[char], search: &Search, start: Option<usize>) -> Option<(usize, usize)>
    ensures { result ≡ spec.sought text.now search.now start }
{
    let start = start?;
    let i = find(search.direction, text, search.pattern.as_slice(), start)?;
    Some((start, i))
}

fn lengthened(
    alloc: Global,
    search: &Search,
    ch: char,
    text: &[char],
) -> Result<Reaction, AllocError>
    ensures { let due = spec.lengthened search.now ch text.now in
        IfOk result (λ reaction. reaction ≡ due) }
{
    let pattern = search.pattern.as_slice();
    if pattern.len() >= MAX_ANSWER {
        return Ok(shows(Next::Same, Message::Nothing));
    }
    let longer = Search {
        origin: search.origin,
        direction: search.direction,
        pattern: typed(alloc, pattern, ch)?,
        found: search.found,
    };
    match sought(text, &longer, search.found.or(from_origin(search))) {
        Some((start, i)) => goes_to(alloc, longer, start, i),
        None => Ok(shows(Next::Same, Message::Refused(Notice::SearchFailed))),
    }
}

/// On to the next match in a direction, of the pattern or else of the one that was accepted last.
fn goes_on(
    alloc: Global,
    search: &Search,
    direction: Direction,
    text: &[char],
    last: &[char],
) -> Result<Reaction, AllocError>
    ensures { let due = spec.goes_on (spec.turned_search search.now direction last.now) text.now in
        IfOk result (λ reaction. reaction ≡ due) }
{
    let pattern = search.pattern.as_slice();
    let pattern = if pattern.is_empty() { last } else { pattern };
    let turned = Search {
        origin: search.origin,
        direction,
        pattern: Chars::from_slice(alloc, pattern)?,
        found: search.found,
    };
    match sought(text, &turned, past_match(&turned)) {
        Some((start, i)) => goes_to(alloc, turned, start, i),
        None => Ok(shows(
            Next::Open(Prompt::Searching(turned)),
            Message::Refused(Notice::SearchFailed),
        )),
    }
}

/// Point goes back to where the search began.
fn returns(alloc: Global, origin: usize, next: Next, message: Message) -> Reaction
    ensures { result ≡ endings.runs (SearchForward [] origin) next message }
{
    let pattern = Chars::new(alloc);
    let start = origin;
    runs(Command::SearchForward { pattern, start }, next, message)
}

/// The search without the last character of its pattern, begun anew at its origin; where there is
/// no match, point goes there. An empty pattern has none.
fn shortened(alloc: Global, search: &Search, text: &[char]) -> Result<Reaction, AllocError>
    ensures { IfOk result (λ reaction. reaction ≡ spec.anew (spec.shorter search.now) text.now) }
{
    let origin = search.origin;
    let shorter = Search {
        origin,
        direction: search.direction,
        pattern: rubbed(alloc, search.pattern.as_slice())?,
        found: None,
    };
    let start = if shorter.pattern.as_slice().is_empty() {
        None
    } else {
        Some(origin)
    };
    match sought(text, &shorter, start) {
        Some((start, i)) => goes_to(alloc, shorter, start, i),
        None => {
            let kept = Next::Open(Prompt::Searching(shorter));
            Ok(returns(alloc, origin, kept, Message::Nothing))
        }
    }
}

/// What a step leads to while a pattern is searched as it is typed.
pub(crate) fn search_step(
    alloc: Global,
    search: &Search,
    step: &Step,
    text: &[char],
    last: &[char],
) -> Result<Reaction, AllocError>
    ensures { let due = spec.search_step search.now step.now text.now last.now in
        IfOk result (λ reaction. reaction ≡ due) }
{
    match step {
        Step::Text(ch) => lengthened(alloc, search, *ch, text),
        Step::Rub => shortened(alloc, search, text),
        Step::Next => goes_on(alloc, search, Direction::Forward, text, last),
        Step::Prev => goes_on(alloc, search, Direction::Backward, text, last),
        Step::Accept => Ok(Reaction::Accepts),
        Step::Cancel => Ok(returns(alloc, search.origin, Next::Closed, Message::Quit)),
        _ => Ok(unbound()),
    }
}
