//! Steps at an open prompt.
ghost use Rattle.std.specs.Prelude.{◌≡◌, IfOk};
ghost use Rattle.mg_minibuffer.specs.PromptStep as spec;

use crate::ending::Reaction;
use crate::lines::{line_step, quit_step};
use crate::prompt::Prompt;
use crate::replacing::{replacement_step, replacing_step};
use crate::scene::Scene;
use crate::searching::search_step;
use mg_keys::Step;
use std::alloc::{AllocError, Global};

/// What a step leads to at an open prompt; `last` is the pattern that was accepted last. Nothing is
/// done yet, and whether a search finds its match is known: a search that is to be run succeeds. A
/// pending step, and one that leaves a search, are no steps at a prompt. The only fault is want of
/// memory.
pub fn prompt_step(
    alloc: Global,
    prompt: &Prompt,
    step: &Step,
    scene: &Scene<'_>,
    last: &[char],
) -> Result<Reaction, AllocError>
    ensures { let due = spec.prompt_step prompt.now step.now scene.now last.now in
        IfOk result (λ reaction. reaction ≡ due) }
{
    match prompt {
        Prompt::Line { asked, answer } => {
            line_step(alloc, *asked, answer.as_slice(), step, scene)
        }
        Prompt::Replacement { pattern, answer } => {
            replacement_step(alloc, pattern.as_slice(), answer.as_slice(), step, scene)
        }
        Prompt::Searching(search) => {
            search_step(alloc, search, step, scene.text.as_slice(), last)
        }
        Prompt::Replacing {
            pattern,
            put,
            count,
        } => replacing_step(
            alloc,
            pattern.as_slice(),
            put.as_slice(),
            *count,
            step,
            scene,
        ),
        Prompt::Quitting => Ok(quit_step(step)),
    }
}
