//! Who wrote the text of a note.
ghost use Rattle.std.specs.Prelude.{◌≡◌, ◌≢◌, ◌⊎◌, ℕ, List, true, Err, string_bytes, IfOk, IfErr, IfSome, OnOk, OnErr};
ghost use Rattle.rga_exchange.specs.Counting.{CountsAs, WritesNothing};
ghost use Rattle.mgr_show.specs.Shown.{IsOfInput, log_content};
ghost use Rattle.mgr_show.specs.Note.{log_name};
ghost use Rattle.mgr_show.specs.Sources.{failures_after};
ghost use Rattle.mgr_show.specs.Authors.{authors_bytes};
ghost use Rattle.mgr_show.specs.About.{read_of, WritesAbout, BeginsToWriteAbout};

use crate::authors::authored;
use crate::fault::ShowFault;
use crate::lines::lines_text;
use crate::note::log_name;
use crate::pieces::pieces_text;
use crate::show::write_text;
use crate::sources::Sources;
use crate::stored::read_log;
use rga_exchange::Counted;
use rga_flat::FlatStore;
use rga_ops::OutOfMemory;
use std::alloc::Global;
use std::io::Write;

/// Writes the text of a note in pieces, each with the replica that wrote it, an object of JSON a
/// line. With `by_lines` it writes the lines of the text, each after the replicas that wrote in it.
///
/// What stands after the last newline of the log counts if it is an operation, and else it is left
/// out.
///
/// `Line` and `Refused` are the first fault in the order of the lines. `Read` comes if the log
/// can't be read. Nothing is written before all of it was taken.
pub fn write_authors<S: Sources, W: Write>(
    alloc: Global,
    sources: &mut S,
    name: &str,
    by_lines: bool,
    writer: &mut Counted<W>,
) -> Result<(), ShowFault>
    ensures written { OnOk result (IfSome (S.contents sources.old (log_name name.now)) (λ bytes.
        WritesAbout W.contents writer.old writer.new bytes
        (authors_bytes by_lines (log_content bytes)))) }

    // A fault of the log is the first one of its bytes.
    ensures refused { IfErr result (λ e. IsOfInput e →
        IfSome (S.contents sources.old (log_name name.now)) (λ bytes. read_of bytes ≡ Err e)) }
    ensures whole { (number : ℕ) → result ≢ Err (ShowFault.Torn number) }
    ensures unwritten { IfErr result (λ e. e ≢ ShowFault.Write → writer.new ≡ writer.old) }
    // Whatever fails, nothing was written or a beginning of what was to be.
    ensures begun { OnErr result (IfSome (S.contents sources.old (log_name name.now)) (λ bytes.
        WritesNothing W.contents writer.old writer.new
        ⊎ BeginsToWriteAbout W.contents writer.old writer.new bytes
        (authors_bytes by_lines (log_content bytes)))) }
    ensures flushed { OnOk result (writer.new.flushed ≡ true) }

    ensures same { (other : List ℕ) → S.contents sources.new other ≡ S.contents sources.old other }
    ensures reads { S.failures sources.new ≡ failures_after result (S.failures sources.old) }
    ensures writes { CountsAs ShowFault.Write result writer.old writer.new }
{
    let file = log_name(alloc, name)?;
    let log = read_log::<FlatStore, S>(alloc, sources, file.as_str())?;
    let text = content_text(alloc, &log.store, by_lines)?;
    write_text(&text, writer)
}

/// What is written of a content. `Memory` alone.
#[tactic(auto, unfolding(crate::specs::Authors::authors_bytes))]
fn content_text(alloc: Global, store: &FlatStore, by_lines: bool) -> Result<String, OutOfMemory>
    ensures ok { IfOk result (λ text.
        string_bytes text ≡ authors_bytes by_lines store.now.content) }
{
    let written = authored(alloc, store)?;
    if by_lines {
        return Ok(lines_text(alloc, &written)?);
    }
    Ok(pieces_text(alloc, &written)?)
}
