//! Commands that run on a buffer.
ghost use Rattle.std.specs.Prelude.{◌≡◌, ◌⊎◌, ◌≤◌, ◌++◌, true, Err, Ok, length, IfSome, IfOk, IfErr, OnOk, OnErr};
ghost use Rattle.rga_ops.specs.Prelude.{text, Memory};
ghost use Rattle.rga_ops.specs.Content.{clock_of, join, content_of};
ghost use Rattle.rga_ops.specs.ListAnswer.{IsAnswer};
ghost use Rattle.rga_ops.specs.Splice.{text_after};
ghost use Rattle.rga_doc.specs.LocalEdit.{splices_answer, splices_operations};
ghost use Rattle.mg_buffer.specs.Faults.{run_answer};
ghost use Rattle.mg_buffer.specs.Following.{TakesUnsaved};
ghost use Rattle.mg_buffer.specs.Groups.{past_of, with_group};
ghost use Rattle.mg_buffer.specs.Kept.{IsLineOfPlace};
ghost use Rattle.mg_buffer.specs.Ran.{Edited, Ran};
ghost use Rattle.mg_buffer.specs.Sight.{command_call, effect_of_call};
ghost use Rattle.mg_buffer.specs.Restored.{newest_restored};
ghost use Rattle.mg_buffer.specs.declared.fault.BufferFault.TheVariants.{Store};

use crate::buffer::Buffer;
use crate::fault::BufferFault;
use crate::history::History;
use crate::kill_buffer::{make_room, put_in};
use crate::line_numbers::{KnownLine, least_begin};
use crate::marker::{mark_at, marker_at};
use crate::memo::Memo;
use crate::room::{add_all, prepare};
use mg_plain::{Command, Plan, View, plan};
use rga_doc::Doc;
use rga_ops::{Op, Refusal, Splice};
use rga_store::TextStore;
use std::alloc::Global;

impl<S: TextStore> Buffer<S> {
    /// Runs a command with its argument and the fill column: the text, point, mark and the memo
    /// become what its plan at the view says. The operations of its splices are taken and are
    /// unsaved; they are a group where there are any. A run of undos ends.
    ///
    /// Faults, in this order: the notice that the command has; `Full` and `Clock` where the
    /// document has them for the new characters; `Memory`. A fault changes nothing in the buffer,
    /// and nothing in the memo.
    pub fn run(
        &mut self,
        command: &Command,
        arg: u16,
        memo: &mut Memo,
        fill: u16,
    ) -> Result<(), BufferFault>
        ensures exact { (result ≡ Err (Store Memory))
            ⊎ (result ≡ run_answer (command_call command.now arg fill) self.old memo.old) }
        ensures ran { OnOk result
            (Ran (command_call command.now arg fill) self.old memo.old self.new memo.new) }
        ensures took { OnOk result (TakesUnsaved self.old self.new) }
        ensures same { OnErr result (self.new ≡ self.old) }
        ensures memo { OnErr result (memo.new ≡ memo.old) }
    {
        let plan = self.planned(command, arg, memo, fill)?;
        let Plan {
            splices,
            point,
            mark,
            kill,
            goal,
            kind,
        } = plan;
        make_room(&mut memo.kill, memo.kind, kind, &kill)?;
        self.edit(&splices, point, mark)?;
        put_in(&mut memo.kill, memo.kind, kind, kill);
        memo.kind = kind;
        memo.goal = goal;
        Ok(())
    }

    /// What a command does at what it sees. Faults: the notice that it has; `Memory`.
    #[tactic(auto, using(crate::proofs::PlaceLaws::seen_point_within, crate::proofs::PlaceLaws::seen_mark_within))]
    fn planned(
        &mut self,
        command: &Command,
        arg: u16,
        memo: &Memo,
        fill: u16,
    ) -> Result<Plan, BufferFault>
        ensures due { IfOk result (λ p.
            effect_of_call (command_call command.now arg fill) self.old memo.now ≡ Ok p) }
        ensures exact { IfErr result (λ e. (e ≡ Store Memory)
            ⊎ (Err e ≡ run_answer (command_call command.now arg fill) self.old memo.now)) }
        ensures same { self.new ≡ self.old }
    {
        self.list();
        let sight = self.sight()?;
        let view = View {
            text: sight.text.as_slice(),
            point: sight.point,
            mark: sight.mark,
            kill: &memo.kill,
            goal: memo.goal,
            last: memo.kind,
        };
        Ok(plan(self.alloc, command, arg, &view, fill)?)
    }

    /// Makes the splices, and puts point and mark at places of the new text. `Full`, `Range`,
    /// `Clock`, `Memory`, as the document has them.
    #[tactic(auto, using(crate::proofs::KeptLaws::kept_unlisted))]
    fn edit(&mut self, splices: &[Splice], point: usize, mark: Option<usize>) -> Result<(), Refusal>
        requires point { point ≤ length (text_after (text self.old.content) splices.now) }
        requires mark { IfSome mark
            (λ k. k ≤ length (text_after (text self.old.content) splices.now)) }
        ensures exact { IsAnswer result
            (splices_answer self.old.limit self.old.content splices.now) }
        ensures edited { OnOk result (Edited splices.now point mark self.old self.new) }
        ensures same { OnErr result (self.new ≡ self.old) }
    {
        self.listed = false;
        let line = take_splices(
            self.alloc,
            &mut self.doc,
            &mut self.history,
            &mut self.unsaved,
            splices,
            self.line,
        )?;
        self.line = line.moved(self.doc.characters(), point);
        self.point = marker_at(&self.doc, point);
        self.mark = mark_at(&self.doc, mark);
        self.undone = None;
        self.listed = true;
        Ok(())
    }
}

/// Makes splices in a document, and adds their group, and their operations behind the unsaved ones.
/// Answers the line of a place in front of them all, by a line that is known. `Full`, `Range`,
/// `Clock`, `Memory`, as the document has them.
#[tactic(auto, using(crate::proofs::LineLaws::least_within))]
fn take_splices<S: TextStore>(
    alloc: Global,
    doc: &mut Doc<S>,
    history: &mut History,
    unsaved: &mut Vec<Op>,
    splices: &[Splice],
    line: KnownLine,
) -> Result<KnownLine, Refusal>
    requires line { IsLineOfPlace (text doc.old.content) line }
    requires old { newest_restored history.old ≤ clock_of doc.old.content }
    ensures exact { IsAnswer result (splices_answer doc.old.limit doc.old.content splices.now) }
    ensures taken { let d = doc.old in let ops = splices_operations d.replica d.content splices.now
        in OnOk result
        ((doc.new ≡ record d { content = join d.content (content_of ops); listed = true })
        × (text doc.new.content ≡ text_after (text d.content) splices.now)
        × (history.new.pasts ≡ with_group history.old.pasts (past_of d.content ops) ops)
        × (unsaved.new.items ≡ unsaved.old.items ++ ops)) }
    ensures newest { newest_restored history.new ≤ newest_restored history.old }
    ensures line { IfOk result (λ known. IsLineOfPlace (text doc.new.content) known) }
    ensures same { OnErr result ((doc.new ≡ record doc.old { listed = doc.new.listed })
        × (history.new.pasts ≡ history.old.pasts)
        × (unsaved.new.items ≡ unsaved.old.items)) }
{
    let drafted = doc.draft(splices)?;
    let ops = drafted.as_slice();
    let change = prepare(alloc, doc.store(), history, unsaved, ops, 0)?;
    let stays = least_begin(line.place, splices);
    let front = line.moved(doc.characters(), stays);
    doc.take(splices, ops)?;
    history.add(change, ops);
    add_all(unsaved, ops);
    Ok(front)
}
