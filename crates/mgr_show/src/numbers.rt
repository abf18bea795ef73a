//! What is counted in the log of a note.
ghost use Rattle.std.specs.Prelude.{◌≡◌, ◌≢◌, ℕ, List, Err, IfOk, IfErr, IfSome, OnErr};
ghost use Rattle.mgr_show.specs.Shown.{IsOfInput, log_content, shown_bytes};
ghost use Rattle.mgr_show.specs.Note.{log_name};
ghost use Rattle.mgr_show.specs.About.{read_of};
ghost use Rattle.mgr_show.specs.Numbers.{failures_of_look, text_is, AreNumbers, FailedReads};
ghost use Rattle.mgr_show.specs.Memory.{ShowMemory};

use crate::counts::{Counts, counts_of};
use crate::fault::ShowFault;
use crate::note::log_name;
use crate::sources::Sources;
use crate::stored::{StoredLog, read_log};
use rga_exchange::LogEnd;
use rga_flat::FlatStore;
use rga_ops::OutOfMemory;
use rga_store::TextStore;
use std::alloc::Global;

/// Whether the text that stands under a name is that of a log.
#[derive(Clone, Copy)]
pub(crate) enum TextIs {
    Same,
    Other,
    /// There is none that can be read.
    Unread,
}

/// What is counted in a log.
#[derive(Drop)]
pub(crate) struct Numbers {
    pub(crate) counts: Counts,
    pub(crate) bytes: usize,
    pub(crate) end: LogEnd,
    pub(crate) text: TextIs,
}

/// Counts what stands in the log of a note, and looks whether its text is the log's. Faults as of
/// `write_authors`.
#[tactic(auto, using(crate::proofs::BesideLaws::memory_after_look))]
pub(crate) fn numbers_of<S: Sources>(
    alloc: Global,
    sources: &mut S,
    name: &str,
) -> Result<Numbers, ShowFault>
    ensures numbers { IfOk result (λ numbers.
        IfSome (S.contents sources.old (log_name name.now)) (λ bytes. AreNumbers bytes numbers)) }
    ensures text { IfOk result (λ numbers. numbers.text ≢ TextIs.Unread →
        IfSome (S.contents sources.old (log_name name.now)) (λ bytes.
        IfSome (S.contents sources.old name.now) (λ text.
        numbers.text ≡ text_is text (shown_bytes (log_content bytes))))) }
    ensures refused { IfErr result (λ e. IsOfInput e →
        IfSome (S.contents sources.old (log_name name.now)) (λ bytes. read_of bytes ≡ Err e)) }
    ensures whole { (number : ℕ) → result ≢ Err (ShowFault.Torn number) }
    ensures no_write { result ≢ Err ShowFault.Write }
    ensures same { (other : List ℕ) → S.contents sources.new other ≡ S.contents sources.old other }
    ensures looked { IfOk result (λ numbers. S.failures sources.new
        ≡ failures_of_look numbers.text (S.failures sources.old)) }
    ensures reads { IfErr result (λ e.
        FailedReads e (S.failures sources.old) (S.failures sources.new)) }
{
    let file = log_name(alloc, name)?;
    let StoredLog { bytes, store, read } = read_log::<FlatStore, S>(alloc, sources, file.as_str())?;
    let text = look_at_text(alloc, sources, name, &store)?;
    let counts = counts_of(alloc, &store)?;
    Ok(Numbers {
        counts,
        bytes,
        end: read.end,
        text,
    })
}

/// Whether the text that stands under a name is that of a store. Out of memory alone.
fn look_at_text<S: Sources>(
    alloc: Global,
    sources: &mut S,
    name: &str,
    store: &FlatStore,
) -> Result<TextIs, OutOfMemory>
    ensures text { IfOk result (λ is. is ≢ TextIs.Unread →
        IfSome (S.contents sources.old name.now)
        (λ text. is ≡ text_is text (shown_bytes store.now.content))) }
    ensures same { (other : List ℕ) → S.contents sources.new other ≡ S.contents sources.old other }
    ensures looked { IfOk result (λ is.
        S.failures sources.new ≡ failures_of_look is (S.failures sources.old)) }
    ensures unfailed { OnErr result (S.failures sources.new ≡ S.failures sources.old) }
{
    let bytes = match sources.read(alloc, name) {
        Ok(bytes) => bytes,
        Err(ShowFault::Read) => return Ok(TextIs::Unread),
        Err(ShowFault::Memory(memory)) => return Err(memory),
        Err(_) => unreachable!(),
    };
    let text = store.text_string(alloc)?;
    if bytes.as_slice() == text.as_bytes() {
        return Ok(TextIs::Same);
    }
    Ok(TextIs::Other)
}
