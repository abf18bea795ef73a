//! What stands in the log of a note.
ghost use Rattle.std.specs.Prelude.{◌≡◌, ◌≢◌, ◌⊎◌, ℕ, List, true, Err, IfErr, IfSome, OnOk, OnErr};
ghost use Rattle.rga_exchange.specs.Counting.{CountsAs, WritesNothing};
ghost use Rattle.mgr_show.specs.Shown.{IsOfInput};
ghost use Rattle.mgr_show.specs.Note.{log_name};
ghost use Rattle.mgr_show.specs.About.{read_of};
ghost use Rattle.mgr_show.specs.Numbers.{FailedReads};
ghost use Rattle.mgr_show.specs.Told.{WritesNumbers, BeginsToWriteNumbers, LooksAtText};

use crate::fault::ShowFault;
use crate::numbers::numbers_of;
use crate::show::write_text;
use crate::sources::Sources;
use crate::told::numbers_text;
use rga_exchange::Counted;
use std::alloc::Global;
use std::io::Write;

/// Writes what stands in the log of a note: how many operations, insertions and deletions, how many
/// elements are visible and how many wait, how many bytes, how it ends, whether the text that
/// stands beside it is the log's, and how many characters each replica wrote, with the greatest
/// counter of these. It writes lines for people, or with `json` one object in one line.
///
/// `Read` comes if the log can't be read. `Line` and `Refused` are the first fault in the order of
/// the lines. `Memory`; and `Write`, before which nothing is written. A text that can't be read is no
/// fault: it is told as unread.
#[tactic(auto, using(crate::proofs::BesideLaws::memory_after_look))]
pub fn write_numbers<S: Sources, W: Write>(
    alloc: Global,
    sources: &mut S,
    name: &str,
    json: bool,
    writer: &mut Counted<W>,
) -> Result<(), ShowFault>
    ensures written { OnOk result (WritesNumbers W.contents writer.old writer.new json name.now
        (S.contents sources.old (log_name name.now)) (S.contents sources.old name.now)) }

    // A fault of the log is the first one of its bytes.
    ensures refused { IfErr result (λ e. IsOfInput e →
        IfSome (S.contents sources.old (log_name name.now)) (λ bytes. read_of bytes ≡ Err e)) }
    ensures whole { (number : ℕ) → result ≢ Err (ShowFault.Torn number) }
    ensures unwritten { IfErr result (λ e. e ≢ ShowFault.Write → writer.new ≡ writer.old) }
    // Whatever fails, nothing was written or a beginning of what was to be.
    ensures begun { OnErr result (WritesNothing W.contents writer.old writer.new
        ⊎ BeginsToWriteNumbers W.contents writer.old writer.new json name.now
        (S.contents sources.old (log_name name.now)) (S.contents sources.old name.now)) }
    ensures flushed { OnOk result (writer.new.flushed ≡ true) }

    ensures same { (other : List ℕ) → S.contents sources.new other ≡ S.contents sources.old other }
    // The text is told as unread exactly if its read failed.
    ensures looked { OnOk result (LooksAtText W.contents writer.old writer.new json name.now
        (S.failures sources.old) (S.failures sources.new)) }
    ensures reads { IfErr result (λ e.
        FailedReads e (S.failures sources.old) (S.failures sources.new)) }
    ensures writes { CountsAs ShowFault.Write result writer.old writer.new }
{
    let numbers = numbers_of(alloc, sources, name)?;
    let text = numbers_text(alloc, name, json, numbers)?;
    write_text(&text, writer)
}
