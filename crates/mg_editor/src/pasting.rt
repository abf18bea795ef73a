//! Texts that are pasted.
ghost use Rattle.std.specs.Prelude.{◌≡◌, ◌<◌, true, false, Ok, Err, IfSome, OnOk, OnErr, length, position};
ghost use Rattle.mg_minibuffer.specs.Dialogues.{takes_text};
ghost use Rattle.rga_ops.specs.Memory.{out_of_memory};
ghost use Rattle.mg_editor.specs.Memory.{PasteMemory};
ghost use Rattle.mg_editor.specs.Pasting as spec;
ghost use Rattle.mg_editor.specs.Presses as presses;

use crate::editor::Editor;
use mg_keys::Step;
use mg_minibuffer::{Message, Next, Request};
use mg_plain::{Chars, Command};
use mg_workspace::ActionFault;
use rga_ops::OutOfMemory;
use rga_store::TextStore;
use std::alloc::AllocError;

/// Why a text was not pasted.
#[derive(Clone, Copy)]
pub enum PasteFault {
    /// A key sequence has begun, or a question is open that takes no text.
    Busy,
    /// The current buffer refuses it, or a growth of memory was refused.
    Action(ActionFault),
}

impl From<ActionFault> for PasteFault {
    ghost use Rattle.std.specs.Prelude.{◌≡◌};
    ghost use Rattle.mg_editor.specs.declared.pasting.PasteFault.TheVariants.{Action};

    ghost from_gives = { λ e fault. fault ≡ Action e };

    fn from(fault: ActionFault) -> PasteFault {
        PasteFault::Action(fault)
    }
}

impl From<OutOfMemory> for PasteFault {
    ghost from_gives = { λ _ fault. fault ≡ PasteMemory };

    fn from(memory: OutOfMemory) -> PasteFault {
        PasteFault::Action(ActionFault::from(memory))
    }
}

impl From<AllocError> for PasteFault {
    ghost from_gives = { λ _ fault. fault ≡ PasteMemory };

    fn from(refused: AllocError) -> PasteFault {
        PasteFault::Action(ActionFault::from(refused))
    }
}

/// The place of the first newline.
fn first_newline(put: &[char]) -> Option<usize>
    ensures exact { result ≡ position spec.is_newline put.now }
    ensures within { IfSome result (λ end. end < length put.now) }
{
    put.iter().position(|ch| *ch == '\n')
}

/// The characters up to the first newline.
#[tactic(auto, using(crate::proofs::LineCuts::cut_there, crate::proofs::LineCuts::cut_nowhere))]
fn first_line(put: &[char]) -> &[char]
    ensures { result.now ≡ spec.first_line put.now }
{
    match first_newline(put) {
        Some(end) => &put[..end],
        None => put,
    }
}

impl<S: TextStore> Editor<S> {
    /// Pastes a text. Where no prompt is open one command inserts it in the current buffer: it is
    /// one undo group. At a prompt for a line, and at a search, the characters up to the first newline
    /// are typed.
    ///
    /// Faults: `Busy` within a key sequence, in query-replace and where it is asked whether to quit;
    /// what the buffer refuses it for; `Memory`. Nothing changed then, nor what is said; but where
    /// memory is wanting at a prompt, a beginning was typed.
    pub fn paste(&mut self, put: &[char]) -> Result<(), PasteFault>
        ensures { spec.Pasted put.now self.old self.new result }
    {
        if self.talk.is_amid_keys() {
            return Err(PasteFault::Busy);
        }
        if self.talk.has_prompt() {
            return self.paste_into_prompt(put);
        }
        self.insert(put)
    }

    /// The text is inserted where no prompt is open.
    fn insert(&mut self, put: &[char]) -> Result<(), PasteFault>
        ensures { spec.Inserts put.now self.old self.new result }
    {
        let put = Chars::from_slice(self.alloc, put)?;
        let index = self.work.current_index();
        self.work.run_at(index, &Command::InsertText(put), 1)?;
        self.talk.show(Next::Same, Message::Nothing);
        Ok(())
    }

    /// The text goes into an answer or a pattern, if the open prompt takes one.
    fn paste_into_prompt(&mut self, put: &[char]) -> Result<(), PasteFault>
        ensures typed { takes_text self.old.talk.prompt ≡ true →
            spec.Types (spec.first_line put.now) self.old self.new result }
        ensures busy { takes_text self.old.talk.prompt ≡ false →
            spec.IsBusy self.old self.new result }
    {
        if !self.talk.takes_text() {
            return Err(PasteFault::Busy);
        }
        self.type_all(first_line(put))
    }

    /// Characters are typed at a prompt that takes them.
    fn type_all(&mut self, line: &[char]) -> Result<(), PasteFault>
        requires { takes_text self.old.talk.prompt ≡ true }
        ensures { spec.Types line.now self.old self.new result }
    {
        for ch in line {
            self.type_one(*ch)?;
        }
        Ok(())
    }

    /// A character is typed, and a prompt that takes text is open still.
    fn type_one(&mut self, ch: char) -> Result<(), OutOfMemory>
        requires { takes_text self.old.talk.prompt ≡ true }
        ensures typed { OnOk result
            (presses.StepTaken (Step.Text ch) self.old self.old self.new (Ok Request.Idle)) }
        ensures ready { OnOk result (takes_text self.new.talk.prompt ≡ true) }
        ensures refused { OnErr result
            (presses.StepTaken (Step.Text ch) self.old self.old self.new (Err out_of_memory)) }
    {
        let request = self.do_step(Step::Text(ch))?;
        drop(request);
        Ok(())
    }
}
