//! Answers and patterns as they are typed.
ghost use Rattle.std.specs.Prelude.{◌≡◌, IfOk};
ghost use Rattle.mg_minibuffer.specs.Typing as spec;

use mg_plain::Chars;
use std::alloc::{AllocError, Global};

/// How many characters an answer or a pattern has at most.
pub const MAX_ANSWER: usize = 1024;

/// An answer with a character more. Where it is as long as it may be, it stays.
pub(crate) fn typed(alloc: Global, answer: &[char], ch: char) -> Result<Chars, AllocError>
    ensures { IfOk result (λ longer. longer ≡ spec.typed answer.now ch) }
{
    let mut longer = Chars::from_slice(alloc, answer)?;
    if answer.len() < MAX_ANSWER {
        longer.push(ch)?;
    }
    Ok(longer)
}

/// An answer without its last character.
pub(crate) fn rubbed(alloc: Global, answer: &[char]) -> Result<Chars, AllocError>
    ensures { IfOk result (λ shorter. shorter ≡ spec.rubbed answer.now) }
{
    let kept = answer.len().saturating_sub(1);
    Chars::from_slice(alloc, &answer[..kept])
}
