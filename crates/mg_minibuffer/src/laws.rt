//! Theorems about prompts.
//!
//! Each function does nothing: its contract is a theorem over the definitions of `specs/`, which
//! the check proves like any other contract.
ghost use Rattle.std.specs.Prelude.{◌≡◌, ℕ, [], List, true, Ok};
ghost use Rattle.mg_plain.specs.declared.command.Command.{Command};
ghost use Rattle.mg_plain.specs.Commands.{effect};
ghost use Rattle.mg_plain.specs.Effect.{Effect};
ghost use Rattle.mg_plain.specs.Situation.{Situation};
ghost use Rattle.mg_keys.specs.declared.step.Step.{Step};
ghost use Rattle.mg_keys.specs.declared.step.Step.TheVariants.{Cancel};
ghost use Rattle.mg_minibuffer.specs.declared.ending.Action.TheVariants.{Run};
ghost use Rattle.mg_minibuffer.specs.declared.ending.Ending.{Ending};
ghost use Rattle.mg_minibuffer.specs.declared.ending.Next.TheVariants.{Closed};
ghost use Rattle.mg_minibuffer.specs.declared.ending.Reaction.TheVariants.{Ends};
ghost use Rattle.mg_minibuffer.specs.declared.ending.Request.TheVariants.{Idle};
ghost use Rattle.mg_minibuffer.specs.declared.message.Message.TheVariants as message;
ghost use Rattle.mg_minibuffer.specs.declared.prompt.Prompt.{Prompt};
ghost use Rattle.mg_minibuffer.specs.PromptStep.{prompt_step};
ghost use Rattle.mg_minibuffer.specs.Scenes.{Scene};
ghost use Rattle.mg_minibuffer.specs.Typing.{is_typing};

/// C-g leaves no prompt, whichever is open, and requests nothing.
pub fn cancelling_leaves_no_prompt()
    ensures { (p : Prompt) (scene : Scene) (last : List ℕ) →
        (e : Ending) × (prompt_step p Cancel scene last ≡ Ends e)
        × (e.next ≡ Closed) × (e.message ≡ message.Quit) × (e.request ≡ Idle) }
{}

/// What is typed at a prompt, taken off again or passed over on the way to another match changes no
/// text: the commands that it runs make no splice.
pub fn typing_at_a_prompt_changes_no_text()
    ensures { (p : Prompt) (step : Step) (scene : Scene) (last : List ℕ) (e : Ending)
        (command : Command) (n column : ℕ) (s : Situation) (f : Effect) →
        is_typing step ≡ true → prompt_step p step scene last ≡ Ends e → e.action ≡ Run command n →
        effect command n s column ≡ Ok f → f.splices ≡ [] }
{}
