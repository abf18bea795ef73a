//! What a replica knows, told, and what its peer lacks, sent.
ghost use Rattle.std.specs.Prelude.{◌≡◌, ℕ, ◌≤◌, ◌++◌, ◌∷◌, [], map, length, true, Ok, IfOk, IfErr, OnOk};
ghost use Rattle.std.specs.List.{AllByRecursion};
ghost use Rattle.rga_ops.specs.Prelude.{Content, Agree, IsSound, join, known_count, content_of};
ghost use Rattle.rga_exchange.specs.Counting.{CountsAs, Writes, WritesFront};
ghost use Rattle.rga_lines.specs.Stream.{bytes_of_lines, newline};
ghost use Rattle.rga_exchange.specs.Sending.{exchange_text};
ghost use Rattle.rga_exchange.specs.Receiving.{exchange_outcome};
ghost use Rattle.rga_brief.specs.Summary.{missing};
ghost use Rattle.rga_brief.specs.Claims.{IsInRange, claim_line};
ghost use Rattle.rga_brief.specs.Summaries.{claims_of};
ghost use Rattle.rga_brief.specs.Told.{IsTold, summary_text};

use crate::claim::Claim;
use crate::claims::claims_of;
use crate::lacks::missing;
use crate::summary::{Summary, summary_of};
use crate::writing::write_claim;
use rga_exchange::{Counted, SendFault, send_list};
use rga_lines::write_end;
use rga_ops::OutOfMemory;
use rga_store::Teller;
use std::alloc::Global;
use std::io::Write;

/// What is told of a store: the claims of its summary, a line each, and the line that ends an
/// exchange, which counts them; each with its newline. `Memory` alone.
pub fn summary_lines<S: Teller>(alloc: Global, store: &S) -> Result<Vec<u8>, OutOfMemory>
    ensures ok { IfOk result (λ lines. IsTold lines.items (S.content store.now)) }
{
    // So many identifiers at most are known, and as many claims are heard.
    let _known = store.known();
    let _limit = store.limit();
    let own = summary_of(alloc, store)?;
    text_of(alloc, &own)
}

/// Writes the lines that are told of a store, which are given to the device at once. No failed call
/// is made again, and the device is flushed at the end. `Write` is the only fault, and comes exactly
/// where a call failed.
pub fn send_lines<W: Write>(lines: &[u8], writer: &mut Counted<W>) -> Result<(), SendFault>
    ensures written { OnOk result (Writes W.contents writer.old writer.new lines.now) }
    ensures begun { WritesFront W.contents writer.old writer.new lines.now }
    ensures flushed { OnOk result (writer.new.flushed ≡ true) }
    ensures device { CountsAs SendFault.Write result writer.old writer.new }
    ensures write { IfErr result (λ e. e ≡ SendFault.Write) }
{
    writer.write_all(lines)?;
    writer.flush()?;
    Ok(())
}

/// What is told of a summary. `Memory` alone.
fn text_of(alloc: Global, summary: &Summary) -> Result<Vec<u8>, OutOfMemory>
    ensures ok { IfOk result (λ text. text.items ≡ summary_text summary.now) }
    ensures range { OnOk result (AllByRecursion IsInRange (claims_of summary.now)) }
{
    let claims = claims_of(alloc, summary)?;
    let mut text = Vec::new(alloc);
    push_claims(alloc, &claims, &mut text)?;
    let end = write_end(alloc, claims.len() as u64)?;
    push_line(&end, &mut text)?;
    Ok(text)
}

/// Adds the line of each claim.
fn push_claims(alloc: Global, claims: &[Claim], text: &mut Vec<u8>) -> Result<(), OutOfMemory>
    ensures ok { OnOk result
        (text.new.items ≡ text.old.items ++ bytes_of_lines (map claim_line claims.now)) }
    ensures range { OnOk result (AllByRecursion IsInRange claims.now) }
{
    for claim in claims {
        let line = write_claim(alloc, *claim)?;
        push_line(&line, text)?;
    }
    Ok(())
}

/// Adds a line with its newline.
fn push_line(line: &str, text: &mut Vec<u8>) -> Result<(), OutOfMemory>
    ensures ok { OnOk result (text.new.items ≡ text.old.items ++ (line.now ++ newline ∷ [])) }
{
    text.extend_from_slice(line.as_bytes())?;
    text.push(b'\n')?;
    Ok(())
}

/// Writes an exchange of the operations of a store that a peer lacks, by the summary that it told:
/// what `send` writes, of these alone. Answers how many there are.
///
/// Whatever the peer claims, nothing else is sent. `Memory` comes before anything was written where
/// it is the list that finds no room; else the faults are those of `send`.
pub fn send_missing<S: Teller, W: Write>(
    alloc: Global,
    store: &S,
    peer: &Summary,
    writer: &mut Counted<W>,
) -> Result<u64, SendFault>
    ensures number { IfOk result
        (λ number. number ≡ length (missing (S.content store.now) peer.now)) }
    ensures written { OnOk result (Writes W.contents writer.old writer.new
        (exchange_text (missing (S.content store.now) peer.now))) }
    // Whatever holds a content that agrees with the store's, and has room for what is sent, receives
    // it whole.
    ensures received { IfOk result (λ number. let held = S.content store.now in
        let sent = content_of (missing held peer.now) in
        (limit : ℕ) (c : Content) → IsSound held → Agree c held
        → known_count (join c sent) ≤ limit
        → exchange_outcome limit c (exchange_text (missing held peer.now))
        ≡ (join c sent, Ok number)) }
    ensures begun { WritesFront W.contents writer.old writer.new
        (exchange_text (missing (S.content store.now) peer.now)) }
    ensures flushed { OnOk result (writer.new.flushed ≡ true) }
    ensures device { CountsAs SendFault.Write result writer.old writer.new }
{
    let ops = missing(alloc, store, peer)?;
    send_list(alloc, &ops, writer)
}
