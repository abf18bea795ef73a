//! The operations that claims lack.
ghost use Rattle.std.specs.Prelude.{◌≡◌, ◌≢◌, ◌⊎◌, ℕ, List, true, Ok, Err, IfOk, IfErr, IfSome, OnOk, OnErr};
ghost use Rattle.rga_exchange.specs.Counting.{CountsAs, WritesNothing};
ghost use Rattle.mgr_show.specs.Missing.{claims_heard, log_held, reads_failed, OnBoth, IsOfClaims, IsOfLog, WritesMissing, BeginsMissing};
ghost use Rattle.mgr_show.specs.Note.{log_source};
ghost use Rattle.mgr_show.specs.Memory.{MissingMemory};

use crate::fault::{MissingFault, ShowFault};
use crate::sources::Sources;
use crate::stored::read_note;
use rga_brief::{Summary, hear_summary, missing};
use rga_exchange::{Counted, ReceiveFault, append_log};
use rga_ops::OutOfMemory;
use rga_store::TextStore;
use std::alloc::{AllocError, Global};
use std::io::Write;

/// Reads claims, as `write_claims` writes them, and then the log of a note. Writes the operations
/// of the note that the claims lack: the lines of a log, with no head and no end. Answers how many
/// there are. What stands after the end line of the claims is dropped.
///
/// `Head` comes if the claims do not begin with their head. `Claims` comes if they are refused,
/// have no end, or can't be read. `Log` comes then, as the faults of `write_claims`. Nothing is
/// written before the claims and the log were taken whole.
pub fn write_missing<S: Sources, W: Write>(
    alloc: Global,
    sources: &mut S,
    name: &str,
    claims: &str,
    writer: &mut Counted<W>,
) -> Result<u64, MissingFault>
    ensures written { IfOk result (λ number. OnBoth (S.contents sources.old claims.now)
        (S.contents sources.old (log_source name.now)) (λ heard log.
        WritesMissing W.contents writer.old writer.new heard log number)) }

    ensures claims { IfErr result (λ e. IsOfClaims e →
        IfSome (S.contents sources.old claims.now) (λ bytes. claims_heard bytes ≡ Err e)) }
    ensures log { IfErr result (λ e. IsOfLog e →
        IfSome (S.contents sources.old (log_source name.now)) (λ bytes.
        log_held bytes ≡ Err e)) }
    ensures whole { (number : ℕ) → result ≢ Err (MissingFault.Log (ShowFault.Torn number)) }
    ensures unwritten { IfErr result (λ e. e ≢ MissingFault.Write → e ≢ MissingMemory
        → writer.new ≡ writer.old) }
    ensures nothing { IfErr result (λ e. e ≢ MissingFault.Write
        → WritesNothing W.contents writer.old writer.new) }
    // Whatever fails, nothing was written or a beginning of the lines.
    ensures begun { OnErr result (OnBoth (S.contents sources.old claims.now)
        (S.contents sources.old (log_source name.now)) (λ heard log.
        WritesNothing W.contents writer.old writer.new
        ⊎ BeginsMissing W.contents writer.old writer.new heard log)) }
    ensures flushed { OnOk result (writer.new.flushed ≡ true) }

    ensures same { (other : List ℕ) → S.contents sources.new other ≡ S.contents sources.old other }
    ensures reads { S.failures sources.new ≡ reads_failed result (S.failures sources.old) }
    ensures writes { CountsAs MissingFault.Write result writer.old writer.new }
{
    let peer = read_claims(alloc, sources, claims)?;
    let log = match read_note(alloc, sources, name) {
        Ok(log) => log,
        Err(ShowFault::Memory(memory)) => return Err(MissingFault::Memory(memory)),
        Err(fault) => return Err(MissingFault::Log(fault)),
    };
    let _known = log.store.known();
    let ops = missing(alloc, &log.store, &peer)?;
    let number = append_log(alloc, &ops, writer)?;
    Ok(number)
}

/// What the claims of a name say.
fn read_claims<S: Sources>(
    alloc: Global,
    sources: &mut S,
    claims: &str,
) -> Result<Summary, MissingFault>
    ensures ok { IfOk result (λ peer. IfSome (S.contents sources.old claims.now)
        (λ bytes. claims_heard bytes ≡ Ok peer)) }
    ensures refused { IfErr result (λ e. IsOfClaims e →
        IfSome (S.contents sources.old claims.now) (λ bytes. claims_heard bytes ≡ Err e)) }
    ensures of_claims { IfErr result (λ e. ¬ (IsOfLog e)) }
    ensures whole { (number : ℕ) → result ≢ Err (MissingFault.Log (ShowFault.Torn number)) }
    ensures no_write { result ≢ Err MissingFault.Write }
    ensures same { (other : List ℕ) → S.contents sources.new other ≡ S.contents sources.old other }
    ensures reads { S.failures sources.new ≡ reads_failed result (S.failures sources.old) }
{
    match sources.read(alloc, claims) {
        Ok(bytes) => hear_claims(alloc, bytes.as_slice()),
        Err(ShowFault::Memory(memory)) => Err(MissingFault::Memory(memory)),
        Err(_) => Err(MissingFault::Claims(ReceiveFault::Read)),
    }
}

/// What claims say after their head, up to the line that counts them.
#[tactic(auto, unfolding(crate::specs::Claims::head_line))]
fn hear_claims(alloc: Global, bytes: &[u8]) -> Result<Summary, MissingFault>
    ensures ok { IfOk result (λ peer. claims_heard bytes.now ≡ Ok peer) }
    ensures fault { IfErr result (λ e. (e ≡ MissingMemory)
        ⊎ (IsOfClaims e × (claims_heard bytes.now ≡ Err e))) }
{
    let Some(lines) = bytes.strip_prefix(b"{\"op\":\"claims\",\"version\":1}\n") else {
        return Err(MissingFault::Head);
    };
    match hear_summary(alloc, &mut Counted::new(lines)) {
        Ok(peer) => Ok(peer),
        Err(ReceiveFault::Memory(memory)) => Err(MissingFault::Memory(memory)),
        // No machine has the bytes on which a reader of them would spend its calls.
        Err(ReceiveFault::Read) => Err(MissingFault::Memory(OutOfMemory::from(AllocError))),
        Err(fault) => Err(MissingFault::Claims(fault)),
    }
}
