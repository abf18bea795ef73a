//! What is talked with the user: the keys, the open prompt, the message.
ghost use Rattle.std.specs.Prelude.{◌≡◌, ◌↔◌, [], false, IfOk, Some, is_some};
ghost use Rattle.std.specs.Option.{option_copied};
ghost use Rattle.mg_keys.specs.Begun.{HasBegun};
ghost use Rattle.mg_minibuffer.specs.PromptStep.{prompt_step};
ghost use Rattle.mg_minibuffer.specs.declared.prompt.Prompt.{Prompt};
ghost use Rattle.mg_minibuffer.specs.Dialogues as spec;

use crate::{Message, Next, Prompt, Reaction, Scene, Search, prompt_step};
use mg_keys::{Keys, Mode, Step};
use mg_plain::Chars;
use std::alloc::{AllocError, Global};
use std::marker::Model;

/// The keys are always read as the open prompt wants it.
#[derive(Drop)]
pub struct Dialogue {
    keys: Keys,
    pub(crate) prompt: Option<Prompt>,
    pub(crate) message: Message,
    /// The pattern that was accepted last.
    last: Chars,
}

impl Model for Dialogue {
    ghost use Rattle.std.specs.Prelude.{◌≡◌};
    ghost use Rattle.mg_minibuffer.specs.Dialogues as spec;

    ghost Value = { spec.Dialogue };

    ghost view = { λ d. record {
      keys = d.keys;
      prompt = d.prompt;
      message = d.message;
      last = d.last;
    } };

    ghost invariant = { λ d. d.keys.mode ≡ spec.mode_of d.prompt };
}

fn mode_of(prompt: &Option<Prompt>) -> Mode
    ensures { result ≡ spec.mode_of prompt.now }
{
    match prompt {
        None => Mode::Plain,
        Some(prompt) => prompt.mode(),
    }
}

impl Dialogue {
    /// No prompt is open, and this is said. Takes no memory.
    pub fn new(alloc: Global, message: Message) -> Dialogue
        ensures { result ≡ spec.dialogue message }
    {
        Dialogue {
            keys: Keys::new(),
            prompt: None,
            message,
            last: Chars::new(alloc),
        }
    }

    /// What a byte leads to, behind those before it. Takes no memory.
    pub fn feed(&mut self, byte: u8) -> Step
        ensures { spec.Fed byte result self.old self.new }
    {
        self.keys.feed(byte)
    }

    /// The prompt and the message behind a step. The key sequence begun is forgotten. Takes no
    /// memory.
    pub fn show(&mut self, next: Next, message: Message)
        ensures { self.new ≡ spec.shown next message self.old }
    {
        match next {
            Next::Same => {}
            Next::Closed => self.prompt = None,
            Next::Open(prompt) => self.prompt = Some(prompt),
        }
        self.keys.enter(mode_of(&self.prompt));
        self.tell(message);
    }

    /// The key sequence begun is forgotten. Takes no memory.
    pub fn forget(&mut self)
        ensures { self.new ≡ spec.forgotten self.old }
    {
        let mode = mode_of(&self.prompt);
        self.keys.enter(mode);
    }

    /// The search that is open, lent. Takes no memory.
    pub fn search(&self) -> Option<&Search>
        ensures { option_copied result ≡ spec.search_of self.now.prompt }
    {
        match &self.prompt {
            Some(Prompt::Searching(search)) => Some(search),
            _ => None,
        }
    }

    /// An open search has another origin and another match: where they are now that the text
    /// changed. Takes no memory.
    pub fn move_search(&mut self, origin: usize, found: Option<usize>)
        ensures { self.new ≡ spec.with_places origin found self.old }
    {
        if let Some(Prompt::Searching(search)) = &mut self.prompt {
            search.origin = origin;
            search.found = found;
        }
    }

    /// An open search is closed, and given back. Takes no memory.
    pub fn take_search(&mut self) -> Option<Search>
        ensures found { result ≡ spec.search_of self.old.prompt }
        ensures closed { self.new ≡ spec.without_search self.old }
    {
        match self.prompt.take() {
            Some(Prompt::Searching(search)) => {
                self.keys.enter(Mode::Plain);
                Some(search)
            }
            other => {
                self.prompt = other;
                None
            }
        }
    }

    /// The search is open again. Takes no memory.
    pub fn reopen(&mut self, search: Search)
        ensures { self.new ≡ spec.at_prompt (Some (Prompt.Searching search)) self.old }
    {
        self.prompt = Some(Prompt::Searching(search));
        self.keys.enter(Mode::Search);
    }

    /// The pattern of a search becomes the last one accepted, unless it is empty. Takes no memory.
    pub fn accept(&mut self, search: Search)
        ensures { self.new ≡ record self.old { last = spec.or_last search.pattern self.old.last } }
    {
        let last = std::mem::replace(&mut self.last, search.pattern);
        if self.last.as_slice().is_empty() {
            self.last = last;
        }
    }

    /// Says something. Takes no memory.
    pub fn tell(&mut self, message: Message)
        ensures { self.new ≡ record self.old { message = message } }
    {
        self.message = message;
    }

    /// Whether some bytes of a key sequence were read, and it is not whole yet. Takes no memory.
    pub fn is_amid_keys(&self) -> bool
        ensures begun { (result ≡ false) ↔ HasBegun self.now.keys [] }
        // Where no prompt is open there is then nothing to forget.
        ensures fresh { result ≡ false → self.now.prompt ≡ None →
            spec.forgotten self.now ≡ self.now }
    {
        self.keys.has_begun()
    }

    /// The prompt closes, and an open search is accepted. Takes no memory.
    pub fn accept_search(&mut self)
        ensures { self.new ≡ spec.accepted_search self.old }
    {
        if let Some(search) = self.take_search() {
            self.accept(search);
        }
        self.show(Next::Closed, Message::Nothing);
    }

    /// The open prompt, lent. Takes no memory.
    pub fn prompt(&self) -> Option<&Prompt>
        ensures { option_copied result ≡ self.now.prompt }
    {
        self.prompt.as_ref()
    }

    /// What is said. Takes no memory.
    pub fn message(&self) -> Message
        ensures { result ≡ self.now.message }
    {
        self.message
    }

    /// Whether a prompt is open. Takes no memory.
    pub fn has_prompt(&self) -> bool
        ensures { result ≡ is_some self.now.prompt }
    {
        self.prompt.is_some()
    }

    /// Whether what is typed goes into an answer, or into a pattern. Takes no memory.
    pub fn takes_text(&self) -> bool
        ensures { result ≡ spec.takes_text self.now.prompt }
    {
        match &self.prompt {
            None | Some(Prompt::Replacing { .. }) | Some(Prompt::Quitting) => false,
            _ => true,
        }
    }

    /// What a step leads to at the open prompt; `Accepts` where none is open. `AllocError` alone.
    pub fn react(
        &self,
        alloc: Global,
        step: &Step,
        scene: &Scene<'_>,
    ) -> Result<Reaction, AllocError>
        ensures prompted { (prompt : Prompt) → self.now.prompt ≡ Some prompt → IfOk result
            (λ reaction. reaction ≡ prompt_step prompt step.now scene.now self.now.last) }
        ensures unprompted { self.now.prompt ≡ None → result ≡ Ok Reaction.Accepts }
    {
        match &self.prompt {
            Some(prompt) => prompt_step(alloc, prompt, step, scene, self.last.as_slice()),
            None => Ok(Reaction::Accepts),
        }
    }
}
