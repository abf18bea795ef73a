//! What every command keeps.
ghost use Rattle.std.specs.Prelude.{◌≡◌, ◌++◌, ℕ, length, Ok};
ghost use Rattle.rga_ops.specs.Splice.{text_after};
ghost use Rattle.mg_plain.specs.declared.cases.Casing.{Casing};
ghost use Rattle.mg_plain.specs.declared.command.Command.{Command};
ghost use Rattle.mg_plain.specs.declared.view.Kind.TheVariants.{Killing};
ghost use Rattle.mg_plain.specs.Cases.{recasing};
ghost use Rattle.mg_plain.specs.Commands.{effect};
ghost use Rattle.mg_plain.specs.Effect.{Effect, IsWithinText, removed_characters};
ghost use Rattle.mg_plain.specs.Kills.{kill_after, kill_line, kill_region, kill_so_far, kill_word};
ghost use Rattle.mg_plain.specs.Situation.{Situation, IsView};

/// What a command does stays within the text: its splices fall and keep apart, so that a document
/// takes them, and point and mark are places of the text that they leave.
pub fn effects_stay_within_the_text()
    ensures { (command : Command) (n column : ℕ) (s : Situation) (e : Effect) →
        IsView s → effect command n s column ≡ Ok e → IsWithinText s e }
{}

/// A kill keeps what it takes out of the text, behind the kill buffer where the command before
/// killed too.
pub fn kills_keep_what_they_take()
    ensures line { (s : Situation) (e : Effect) → kill_line s ≡ Ok e →
        kill_after s.last s.kill e.kind e.kill
        ≡ kill_so_far s.last s.kill Killing ++ removed_characters s.text e.splices }
    ensures word { (s : Situation) (e : Effect) → kill_word s ≡ Ok e →
        kill_after s.last s.kill e.kind e.kill
        ≡ kill_so_far s.last s.kill Killing ++ removed_characters s.text e.splices }
    ensures region { (s : Situation) (e : Effect) → kill_region s ≡ Ok e →
        kill_after s.last s.kill e.kind e.kill
        ≡ kill_so_far s.last s.kill Killing ++ removed_characters s.text e.splices }
{}

/// A change of case keeps the length of the text.
pub fn case_keeps_the_length()
    ensures { (casing : Casing) (s : Situation) (e : Effect) →
        IsView s → recasing casing s ≡ Ok e → length (text_after s.text e.splices) ≡ length s.text }
{}
