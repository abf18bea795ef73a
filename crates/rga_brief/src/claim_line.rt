//! Lines where claims are told.
ghost use Rattle.std.specs.Prelude.{◌≡◌, ◌≢◌, IfOk, IfErr, Err};
ghost use Rattle.rga_lines.specs.Table.{any_line_at};
ghost use Rattle.rga_lines.specs.Memory.{LineMemory as Memory};
ghost use Rattle.rga_brief.specs.Lines.{claim_line_at, claim_said, end_said};

use crate::claim::Claim;
use crate::reading::read_claim;
use rga_lines::{Line, LineFault, MAX_LINE, read_any};
use rga_ops::OutOfMemory;
use std::alloc::Global;
use std::str;

/// What a line says where claims are told.
#[derive(Clone, Copy, Debug, PartialEq, Eq)]
pub(crate) enum ClaimLine {
    /// A claim.
    One(Claim),
    /// The end of so many claims.
    Last(u64),
}

/// What a line says where claims are told, given without its newline: a claim, or the end of an
/// exchange, which counts the claims here. `Long` comes first, as of `read_any`. What is neither is
/// at fault as `read_any` says, and `Kind` where it is another line of an exchange.
pub(crate) fn read_claim_line(alloc: Global, bytes: &[u8]) -> Result<ClaimLine, LineFault>
    ensures { result ≢ Err Memory → result ≡ claim_line_at bytes.now }
{
    if bytes.len() > MAX_LINE {
        return Err(LineFault::Long);
    }
    if let Some(claim) = claim_said(alloc, bytes)? {
        return Ok(ClaimLine::One(claim));
    }
    end_said(alloc, bytes)
}

/// The claim that the bytes say, if they say one.
fn claim_said(alloc: Global, bytes: &[u8]) -> Result<Option<Claim>, OutOfMemory>
    ensures ok { IfOk result (λ claim. claim ≡ claim_said bytes.now) }
{
    let Ok(text) = str::from_utf8(bytes) else {
        return Ok(None);
    };
    read_claim(alloc, text)
}

/// The end that the bytes say, or what is wrong with them.
fn end_said(alloc: Global, bytes: &[u8]) -> Result<ClaimLine, LineFault>
    ensures { result ≢ Err Memory → result ≡ end_said (any_line_at bytes.now) }
{
    match read_any(alloc, bytes)? {
        Line::Last(count) => Ok(ClaimLine::Last(count)),
        _ => Err(LineFault::Kind),
    }
}
