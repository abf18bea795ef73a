//! The echo line.
ghost use Rattle.std.specs.Prelude.{◌≡◌, IfOk, string_bytes};
ghost use Rattle.mg_minibuffer.specs.Echo as spec;

use crate::dialogue::Dialogue;
use crate::{Message, Prompt};
use std::alloc::{AllocError, Global};

impl Dialogue {
    /// What the echo line says: the message, of a buffer with that name; where there is none, the
    /// open prompt, and the answer so far. `AllocError` alone.
    pub fn echo(&self, alloc: Global, name: &str) -> Result<String, AllocError>
        ensures { IfOk result (λ text. string_bytes text ≡ spec.echo_text self.now name.now) }
    {
        match self.message {
            Message::Nothing => prompt_text(alloc, &self.prompt),
            message => message.text(alloc, name),
        }
    }

    /// Whether the cursor stands in the echo line: no message stands there, and a line is asked for.
    /// Takes no memory.
    pub fn has_cursor(&self) -> bool
        ensures { result ≡ spec.has_cursor self.now }
    {
        match self.message {
            Message::Nothing => matches!(
                &self.prompt,
                Some(Prompt::Line { .. }) | Some(Prompt::Replacement { .. })
            ),
            _ => false,
        }
    }
}

fn prompt_text(alloc: Global, prompt: &Option<Prompt>) -> Result<String, AllocError>
    ensures { IfOk result (λ text. string_bytes text ≡ spec.prompt_text prompt.now) }
{
    let Some(prompt) = prompt else {
        return Ok(String::new(alloc));
    };
    let mut text = String::from_str(alloc, prompt.label())?;
    let answer: String = prompt.answer().iter().copied().collect(alloc)?;
    text.push_str(&answer)?;
    Ok(text)
}
