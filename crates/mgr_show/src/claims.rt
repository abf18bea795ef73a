//! The claims of a log.
ghost use Rattle.std.specs.Prelude.{◌≡◌, ◌≢◌, ◌⊎◌, ℕ, List, true, Err, IfOk, IfErr, IfSome, OnOk, OnErr};
ghost use Rattle.rga_store.specs.declared.text_store.TheConstants.{MAX_LIMIT};
ghost use Rattle.rga_exchange.specs.Counting.{CountsAs, WritesNothing};
ghost use Rattle.mgr_show.specs.Shown.{IsOfInput};
ghost use Rattle.mgr_show.specs.Note.{note_of, log_source};
ghost use Rattle.mgr_show.specs.Sources.{failures_after};
ghost use Rattle.mgr_show.specs.Claims.{AreClaimsOf, TellsClaims, BeginsToTell};

use crate::fault::ShowFault;
use crate::sources::Sources;
use crate::stored::read_note;
use rga_brief::{send_lines, summary_lines};
use rga_exchange::Counted;
use rga_ops::OutOfMemory;
use rga_store::Teller;
use std::alloc::Global;
use std::io::Write;

/// Reads the log of a note, and writes the claims of what it holds: their head, a line each, and
/// the line that counts them. The log is the file `NAME.ops`; the name `-` is taken as it is. A
/// last line without newline counts if it is an operation, and else is left out: the note may be
/// open elsewhere.
///
/// `Line` and `Refused` are the first fault in the order of the lines. `Read` comes if the log
/// can't be read. Nothing is written before all of it was taken.
pub fn write_claims<S: Sources, W: Write>(
    alloc: Global,
    sources: &mut S,
    name: &str,
    writer: &mut Counted<W>,
) -> Result<(), ShowFault>
    ensures told { OnOk result (IfSome (S.contents sources.old (log_source name.now))
        (λ bytes. TellsClaims W.contents writer.old writer.new bytes)) }

    ensures refused { IfErr result (λ e. IsOfInput e →
        IfSome (S.contents sources.old (log_source name.now)) (λ bytes.
        note_of MAX_LIMIT bytes ≡ Err e)) }
    ensures whole { (number : ℕ) → result ≢ Err (ShowFault.Torn number) }
    ensures unwritten { IfErr result (λ e. e ≢ ShowFault.Write → writer.new ≡ writer.old) }
    // Whatever fails, nothing was written or a beginning of the claims.
    ensures begun { OnErr result (IfSome (S.contents sources.old (log_source name.now)) (λ bytes.
        WritesNothing W.contents writer.old writer.new
        ⊎ BeginsToTell W.contents writer.old writer.new bytes)) }
    ensures flushed { OnOk result (writer.new.flushed ≡ true) }

    ensures same { (other : List ℕ) → S.contents sources.new other ≡ S.contents sources.old other }
    ensures reads { S.failures sources.new ≡ failures_after result (S.failures sources.old) }
    ensures writes { CountsAs ShowFault.Write result writer.old writer.new }
{
    let log = read_note(alloc, sources, name)?;
    let text = claims_text(alloc, &log.store)?;
    send_lines(text.as_slice(), writer)?;
    Ok(())
}

/// The head, and the claims of a store after it. `Memory` alone.
#[tactic(auto, unfolding(crate::specs::Claims::head_line))]
fn claims_text<S: Teller>(alloc: Global, store: &S) -> Result<Vec<u8>, OutOfMemory>
    ensures ok { IfOk result (λ text. AreClaimsOf text.items (S.content store.now)) }
{
    let lines = summary_lines(alloc, store)?;
    let mut text = Vec::new(alloc);
    text.extend_from_slice(b"{\"op\":\"claims\",\"version\":1}\n")?;
    text.extend_from_slice(lines.as_slice())?;
    Ok(text)
}
