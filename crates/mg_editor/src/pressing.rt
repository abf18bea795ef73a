//! The editor, pressed byte by byte.
ghost use Rattle.std.specs.Prelude.{◌≡◌, ◌≢◌, ◌⊎◌, true, is_some, None, Err, IfOk, OnErr};
ghost use Rattle.mg_minibuffer.specs.Dialogues.{Dialogue, shown};
ghost use Rattle.mg_minibuffer.specs.PlainStep as plain;
ghost use Rattle.mg_minibuffer.specs.ReplacementStep as queries;
ghost use Rattle.mg_minibuffer.specs.declared.ending.Action.TheVariants.{Run};
ghost use Rattle.mg_workspace.specs.Actions.{Done};
ghost use Rattle.mg_workspace.specs.Workspaces.{scene_of};
ghost use Rattle.mg_editor.specs.Presses as spec;
ghost use Rattle.mg_editor.specs.Telling.{message_of_cause};
ghost use Rattle.mg_workspace.specs.Memory.{ActionMemory};

use crate::editor::Editor;
use crate::telling::message_of_cause;
use mg_keys::Step;
use mg_minibuffer::{Ending, Message, Next, Reaction, Request, Search, next_match, plain_step};
use mg_plain::{Chars, Command, Notice};
use mg_workspace::{ActionFault, Cause};
use rga_ops::OutOfMemory;
use rga_store::TextStore;

impl<S: TextStore> Editor<S> {
    /// A step where no prompt is open.
    fn take_plain(&mut self, step: Step) -> Result<Request, OutOfMemory>
        ensures plainly { IfOk result
            (spec.Ended (plain.plain_step step (scene_of self.old.work)) self.old self.new) }
        ensures refused { OnErr result (self.new ≡ spec.ran_out self.old) }
    {
        self.work.list();
        match self.plain_ending(step) {
            Ok(ending) => self.end(ending),
            Err(memory) => self.run_out(memory),
        }
    }

    /// What a step leads to where no prompt is open.
    fn plain_ending(&self, step: Step) -> Result<Ending, OutOfMemory>
        ensures { let due = plain.plain_step step (scene_of self.now.work) in
            IfOk result (λ ending. ending ≡ due) }
    {
        let scene = self.work.scene()?;
        Ok(plain_step(self.alloc, step, &scene))
    }

    /// Want of memory: the key sequence begun is forgotten.
    fn run_out(&mut self, memory: OutOfMemory) -> Result<Request, OutOfMemory>
        ensures ran_out { self.new ≡ spec.ran_out self.old }
        ensures answer { result ≡ Err memory }
    {
        self.talk.forget();
        Err(memory)
    }

    /// Does the action of an ending, and tells what came of it.
    pub(crate) fn end(&mut self, ending: Ending) -> Result<Request, OutOfMemory>
        ensures ended { IfOk result (spec.Ended ending self.old self.new) }
        ensures refused { OnErr result (self.new ≡ spec.ran_out self.old) }
    {
        let Ending {
            action,
            next,
            message,
            request,
            refused,
        } = ending;
        match self.work.do_action(&action) {
            Ok(()) => self.show(next, message, request),
            Err(fault) => self.refuse(fault, refused),
        }
    }

    /// Tells what was done.
    fn show(
        &mut self,
        next: Next,
        message: Message,
        request: Request,
    ) -> Result<Request, OutOfMemory>
        ensures told { self.new.talk ≡ shown next message self.old.talk }
        ensures answer { result ≡ Ok request }
        ensures work { self.new.work ≡ self.old.work }
    {
        self.talk.show(next, message);
        Ok(request)
    }

    /// Tells why an action was refused. Want of memory leaves prompt and message as they are.
    fn refuse(&mut self, fault: ActionFault, refused: Next) -> Result<Request, OutOfMemory>
        ensures told { IfOk result (λ request. (cause : Cause) × (fault ≡ ActionFault.Refused cause)
            × (self.new.talk ≡ shown refused (message_of_cause cause) self.old.talk)
            × (request ≡ Request.Idle)) }
        ensures memory { OnErr result (fault ≡ ActionMemory) }
        ensures refused { OnErr result (self.new ≡ spec.ran_out self.old) }
        ensures work { self.new.work ≡ self.old.work }
    {
        match fault {
            ActionFault::Refused(cause) => {
                self.show(refused, message_of_cause(cause), Request::Idle)
            }
            ActionFault::Memory(memory) => self.run_out(memory),
        }
    }

    /// A step at an open prompt.
    fn take_prompted(&mut self, step: &Step) -> Result<Request, OutOfMemory>
        ensures prompted { is_some self.old.talk.prompt ≡ true → IfOk result
            (spec.FollowsReaction (spec.editor_reaction step.now self.old) self.old self.new) }
        ensures refused { OnErr result (self.new ≡ spec.ran_out self.old) }
    {
        self.work.list();
        match self.reaction(step) {
            Ok(reaction) => self.follow(reaction),
            Err(memory) => self.run_out(memory),
        }
    }

    /// What a step leads to at an open prompt.
    fn reaction(&self, step: &Step) -> Result<Reaction, OutOfMemory>
        ensures { is_some self.now.talk.prompt ≡ true → IfOk result
            (λ reaction. reaction ≡ spec.editor_reaction step.now self.now) }
    {
        let scene = self.work.scene()?;
        Ok(self.talk.react(self.alloc, step, &scene)?)
    }

    /// What a reaction asks for.
    fn follow(&mut self, reaction: Reaction) -> Result<Request, OutOfMemory>
        ensures follows { IfOk result (spec.FollowsReaction reaction self.old self.new) }
        ensures refused { OnErr result (self.new ≡ spec.ran_out self.old) }
    {
        match reaction {
            Reaction::Ends(ending) => self.end(ending),
            Reaction::Replaces {
                pattern,
                put,
                count,
            } => self.replace(pattern.as_slice(), put.as_slice(), count),
            Reaction::Accepts => {
                self.talk.accept_search();
                Ok(Request::Idle)
            }
        }
    }

    /// Replaces the match at point, and looks for the next one.
    fn replace(
        &mut self,
        pattern: &[char],
        put: &[char],
        count: usize,
    ) -> Result<Request, OutOfMemory>
        ensures replaced { let reaction = Reaction.Replaces pattern.now put.now count in
            IfOk result (spec.FollowsReaction reaction self.old self.new) }
        ensures refused { OnErr result (self.new ≡ spec.ran_out self.old) }
    {
        match self.replace_one(pattern, put) {
            Ok(()) => Ok(self.go_on(pattern, put, count.saturating_add(1))),
            Err(fault) => self.refuse(fault, Next::Same),
        }
    }

    fn replace_one(&mut self, pattern: &[char], put: &[char]) -> Result<(), ActionFault>
        ensures one { result ≢ Err ActionMemory →
            Done (Run (Command.ReplaceOne pattern.now put.now) 1)
            self.old.work (self.new.work, result) }
        ensures memory { result ≡ Err ActionMemory → self.new.work ≡ self.old.work }
        ensures talk { self.new.talk ≡ self.old.talk }
    {
        let pattern = Chars::from_slice(self.alloc, pattern)?;
        let put = Chars::from_slice(self.alloc, put)?;
        self.work.run(&Command::ReplaceOne { pattern, put }, 1)
    }

    /// Looks for the next match. Where that finds no memory, query-replace ends.
    fn go_on(&mut self, pattern: &[char], put: &[char], count: usize) -> Request
        ensures { let scene = scene_of self.old.work in (e : Ending)
            × ((e ≡ queries.asks_at_next_match pattern.now put.now count scene)
            ⊎ (e ≡ spec.ending_without_memory)) × spec.Ended e self.old self.new result }
    {
        match self.find_next(pattern, put, count) {
            Ok(request) => request,
            Err(memory) => {
                self.talk
                    .show(Next::Closed, Message::Refused(Notice::Memory(memory)));
                Request::Idle
            }
        }
    }

    fn find_next(
        &mut self,
        pattern: &[char],
        put: &[char],
        count: usize,
    ) -> Result<Request, OutOfMemory>
        ensures found { let scene = scene_of self.old.work in IfOk result
            (spec.Ended (queries.asks_at_next_match pattern.now put.now count scene)
            self.old self.new) }
        ensures refused { OnErr result (self.new ≡ spec.ran_out self.old) }
    {
        self.work.list();
        match self.next_ending(pattern, put, count) {
            Ok(ending) => self.end(ending),
            Err(memory) => self.run_out(memory),
        }
    }

    /// What the next match leads to, or that there is none.
    fn next_ending(
        &self,
        pattern: &[char],
        put: &[char],
        count: usize,
    ) -> Result<Ending, OutOfMemory>
        ensures { let scene = scene_of self.now.work in
            let due = queries.asks_at_next_match pattern.now put.now count scene in
            IfOk result (λ ending. ending ≡ due) }
    {
        let scene = self.work.scene()?;
        Ok(next_match(self.alloc, pattern, put, count, &scene)?)
    }

    /// A step that does not wait for more bytes.
    pub(crate) fn do_step(&mut self, step: Step) -> Result<Request, OutOfMemory>
        ensures stepped { IfOk result
            (spec.FollowsReaction (spec.editor_reaction step self.old) self.old self.new) }
        ensures refused { OnErr result (self.new ≡ spec.ran_out self.old) }
    {
        if self.talk.has_prompt() {
            self.take_prompted(&step)
        } else {
            self.take_plain(step)
        }
    }

    /// A step of a byte that stays at the open prompt.
    #[tactic(auto, using(crate::proofs::Steps::taken))]
    fn take_step(&mut self, step: Step) -> Result<Request, OutOfMemory>
        ensures { spec.StepTaken step self.old self.old self.new result }
    {
        match step {
            Step::Pending => Ok(Request::Idle),
            step => self.do_step(step),
        }
    }

    /// A byte that leaves the search that is open.
    fn leave(&mut self, byte: u8) -> Result<Request, OutOfMemory>
        ensures { (step : Step) × (read : Dialogue)
            × spec.IsRead byte Step.Leave self.old.talk step read
            × spec.StepTaken step self.old (record self.old { talk = read }) self.new result }
    {
        match self.talk.take_search() {
            Some(search) => {
                let step = self.talk.feed(byte);
                self.leave_by(search, step)
            }
            None => self.take_step(Step::Unbound),
        }
    }

    /// The step of a byte that left a search.
    #[tactic(auto, using(crate::proofs::Steps::taken))]
    fn leave_by(&mut self, search: Search, step: Step) -> Result<Request, OutOfMemory>
        requires { self.old.talk.prompt ≡ None }
        ensures { spec.StepTaken step (spec.with_search search self.old)
            (spec.with_search_accepted search self.old) self.new result }
    {
        match step {
            Step::Pending => {
                self.talk.accept(search);
                self.talk.tell(Message::Nothing);
                Ok(Request::Idle)
            }
            step => self.leave_plainly(search, step),
        }
    }

    fn leave_plainly(&mut self, search: Search, step: Step) -> Result<Request, OutOfMemory>
        requires { self.old.talk.prompt ≡ None }
        ensures left { let old = spec.with_search_accepted search self.old in
            IfOk result (spec.Ended (plain.plain_step step (scene_of old.work)) old self.new) }
        ensures refused { OnErr result (self.new ≡ spec.ran_out (spec.with_search search self.old)) }
    {
        match self.take_plain(step) {
            Ok(request) => {
                self.talk.accept(search);
                Ok(request)
            }
            Err(fault) => {
                self.talk.reopen(search);
                Err(fault)
            }
        }
    }

    /// Presses a byte: it goes on with a key sequence, or it ends one, whose step is taken. Where no
    /// prompt is open a command runs in the current buffer; at an open prompt the answer, the search
    /// or query-replace goes on. A byte that leaves a search does what it does without one.
    ///
    /// Out of memory is the only fault: nothing changed then, but that the key sequence that had begun is
    /// forgotten.
    pub fn press(&mut self, byte: u8) -> Result<Request, OutOfMemory>
        ensures pressed { spec.Pressed byte self.old self.new result }
        ensures refused { OnErr result (self.new ≡ spec.ran_out self.old) }
    {
        let first = self.talk.feed(byte);
        match first {
            Step::Leave => self.leave(byte),
            step => self.take_step(step),
        }
    }
}
