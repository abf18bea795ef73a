//! What a peer knows, heard of it.
ghost use Rattle.std.specs.Prelude.{◌≡◌, ◌≢◌, ◌<◌, ◌≤◌, ◌++◌, ◌∷◌, ℕ, List, [], length, false, Result, Ok, Err, Some, None, OnOk, IfErr};
ghost use Rattle.rga_exchange.specs.Counting.{CountsAs, OnBytes};
ghost use Rattle.rga_lines.specs.Stream.{lines_of};
ghost use Rattle.rga_lines.specs.declared.line.TheConstants.{MAX_LINE};
ghost use Rattle.rga_exchange.specs.declared.fault.ReceiveFault.{ReceiveFault as Fault};
ghost use Rattle.rga_exchange.specs.declared.fault.ReceiveFault.TheVariants.{Read as ReadFailed};
ghost use Rattle.rga_exchange.specs.Memory.{ReceiveMemory as Memory};
ghost use Rattle.rga_brief.specs.declared.claim.Claim.{Claim as ClaimName};
ghost use Rattle.rga_brief.specs.Heard.{ReadsToBlock};
ghost use Rattle.rga_brief.specs.Lines.{claim_line_at};
ghost use Rattle.rga_brief.specs.Summary.{Summary as Heard};
ghost use Rattle.rga_brief.specs.Told.{after_claim_line, bytes_heard, ended, summary_heard};
ghost use Rattle.rga_brief.specs.declared.claim_line.ClaimLine.TheVariants.{One, Last};
ghost use Rattle.rga_exchange.specs.Memory.{ReceiveMemory};

use crate::claim::Claim;
use crate::claim_line::{ClaimLine, read_claim_line};
use crate::claims::summary_from;
use crate::summary::Summary;
use rga_exchange::{BLOCK, Counted, ReceiveFault};
use rga_lines::{LineFault, Splitter};
use rga_ops::Refusal;
use rga_store::MAX_LIMIT;
use std::alloc::Global;
use std::io::Read;

/// Hears what a peer claims to know: lines of claims, up to the line that counts them. No read
/// follows the one that brought that line, and what stands behind it in that read is dropped.
///
/// Faults, of which the first in the order of the lines is answered, a rest of more than 65536
/// bytes counting as one: `Line`, if a line is neither a claim nor the end; `Refused` with `Full`, at
/// the claim after 1,000,000, which are as many as a content may have; `Count`, if the end names
/// another number. Then `Cut`, if there is no end. `Read` and `Memory` come where the device fails
/// and where a growth is refused. So at most 1,000,001 lines are heard.
pub fn hear_summary<R: Read>(
    alloc: Global,
    reader: &mut Counted<R>,
) -> Result<Summary, ReceiveFault>
    // However the reads cut the bytes, they lead to what all of them lead to.
    ensures outcome { result ≢ Err ReceiveFault.Read → result ≢ Err ReceiveMemory
        → OnBytes R.remaining reader.old (λ bytes. summary_heard bytes ≡ result) }
    ensures last { OnOk result (ReadsToBlock R.remaining reader.old reader.new) }
    ensures device { CountsAs ReceiveFault.Read result reader.old reader.new }
{
    let mut splitter = Splitter::new(alloc);
    let mut claims = Vec::new(alloc);
    let mut block = [0u8; BLOCK];
    'reads: loop {
        if let Some(number) = take_claims(alloc, &mut splitter, &mut claims)? {
            return end_claims(alloc, &claims, number);
        }
        let Ok(count) = reader.read(&mut block) else {
            return Err(ReceiveFault::Read);
        };
        if count == 0 {
            return Err(ReceiveFault::Cut);
        }
        splitter.feed(&block[..count])?;
    }
}

/// Takes the claims of the whole lines that the splitter has, up to the end line: then the number
/// that it names is the answer.
fn take_claims(
    alloc: Global,
    splitter: &mut Splitter,
    claims: &mut Vec<Claim>,
) -> Result<Option<u64>, ReceiveFault>
    requires { splitter.old.broken ≡ false }
    ensures all { result ≡ Ok None → (more : List ℕ) →
        bytes_heard claims.old.items (splitter.old.waiting ++ more)
        ≡ bytes_heard claims.new.items (splitter.new.waiting ++ more) }
    ensures end { (number : ℕ) → result ≡ Ok (Some number) → (more : List ℕ) →
        bytes_heard claims.old.items (splitter.old.waiting ++ more)
        ≡ ended claims.new.items number }
    ensures fault { IfErr result (λ e. e ≢ Memory → (more : List ℕ) →
        bytes_heard claims.old.items (splitter.old.waiting ++ more) ≡ Err e) }
    ensures device { IfErr result (λ e. e ≢ ReadFailed) }

    ensures none_left { result ≡ Ok None → (lines_of splitter.new.waiting ≡ [])
        × (length splitter.new.waiting ≤ MAX_LINE) }
    ensures whole { result ≡ Ok None → splitter.new.broken ≡ false }
{
    'lines: loop {
        let end = match splitter.find_line() {
            Ok(Some(end)) => end,
            Ok(None) => return Ok(None),
            Err(fault) => return Err(ReceiveFault::Line(claims.len() as u64 + 1, fault)),
        };
        if let Some(number) = take_claim(alloc, splitter.line(end), claims)? {
            return Ok(Some(number));
        }
        splitter.pass_line(end);
    }
}

/// Takes the claim of a whole line behind others, or answers the number that the end line names.
fn take_claim(
    alloc: Global,
    line: &[u8],
    claims: &mut Vec<Claim>,
) -> Result<Option<u64>, ReceiveFault>
    ensures claim { result ≡ Ok None → (claim : ClaimName) × (claim_line_at line.now ≡ Ok (One claim))
        × (length claims.old.items < 1000000)
        × (claims.new.items ≡ claims.old.items ++ claim ∷ []) }
    ensures end { (number : ℕ) → result ≡ Ok (Some number) →
        claim_line_at line.now ≡ Ok (Last number) }
    ensures same { result ≢ Ok None → claims.new.items ≡ claims.old.items }
    // Whatever stands behind the line.
    ensures fault { IfErr result (λ e. e ≢ Memory → (behind : List ClaimName → Result Heard Fault) →
        after_claim_line claims.old.items (claim_line_at line.now) behind ≡ Err e) }
    ensures device { IfErr result (λ e. e ≢ ReadFailed) }
{
    let number = claims.len() as u64 + 1;
    match read_claim_line(alloc, line) {
        Ok(ClaimLine::One(claim)) => {
            if claims.len() >= MAX_LIMIT {
                return Err(ReceiveFault::Refused(number, Refusal::Full));
            }
            claims.push(claim)?;
            Ok(None)
        }
        Ok(ClaimLine::Last(number)) => Ok(Some(number)),
        Err(LineFault::Memory(memory)) => Err(ReceiveFault::Memory(memory)),
        Err(fault) => Err(ReceiveFault::Line(number, fault)),
    }
}

/// The summary of these claims, of which the end line names so many.
fn end_claims(alloc: Global, claims: &[Claim], number: u64) -> Result<Summary, ReceiveFault>
    ensures exact { result ≢ Err Memory → result ≡ ended claims.now number }
    ensures device { IfErr result (λ e. e ≢ ReadFailed) }
{
    if number != claims.len() as u64 {
        return Err(ReceiveFault::Count);
    }
    Ok(summary_from(alloc, claims)?)
}
