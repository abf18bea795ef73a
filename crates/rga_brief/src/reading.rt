//! Lines read.
ghost use Rattle.std.specs.Prelude.{◌≡◌, IfOk, IfErr};
ghost use Rattle.serde_json.specs.View.{view};
ghost use Rattle.rga_brief.specs.Claims as spec;

use crate::block::Block;
use crate::claim::{Claim, HALF};
use crate::digests::Digests;
use rga_lines::{of_json, two_numbers};
use rga_ops::OutOfMemory;
use serde_json::Value;
use std::alloc::Global;

/// What a line of a summary says, given without its newline: a JSON object (RFC 8259), in any
/// spelling, with exactly these members, of which `del` and `ins` may be left out
///
/// ```text
/// {"block":[1,195],"del":[2942549068,2248259116],"ins":[147009959,2768625435]}
/// ```
///
/// The block is that of a replica and a number. A digest is two numbers below 2 ^ 32, and is
/// `first * 2 ^ 32 + second`: so each number is one that each JSON reader keeps exactly. `None` if
/// it is no such object. `Memory` is the only refusal.
pub fn read_claim(alloc: Global, text: &str) -> Result<Option<Claim>, OutOfMemory>
    ensures ok { IfOk result (λ claim. claim ≡ spec.claim_in text.now) }
{
    match Value::from_str(alloc, text) {
        Ok(value) => Ok(claim_of(&value)),
        Err(error) => match of_json(&error) {
            Some(memory) => Err(memory),
            None => Ok(None),
        },
    }
}

fn claim_of(value: &Value) -> Option<Claim>
    ensures { result ≡ spec.claim_of (view value.now) }
{
    let block = block_in(value)?;
    let deleted = digest_in(value, "del")?;
    let inserted = digest_in(value, "ins")?;
    if !has_members(value, 1 + one(deleted) + one(inserted)) {
        return None;
    }
    let digests = Digests { inserted, deleted };
    Some(Claim { block, digests })
}

/// The block that is named.
fn block_in(value: &Value) -> Option<Block>
    ensures { result ≡ spec.block_in (view value.now) }
{
    let (replica, number) = two_numbers(value.get("block")?.as_array()?)?;
    let replica = u16::try_from(replica).ok()?;
    Some(Block { replica, number })
}

/// The digest that a member is, if the member is there. `None` if it is no digest.
fn digest_in(value: &Value, name: &str) -> Option<Option<u64>>
    ensures { result ≡ spec.digest_in name.now (view value.now) }
{
    let Some(member) = value.get(name) else {
        return Some(None);
    };
    let (high, low) = two_numbers(member.as_array()?)?;
    let high = u32::try_from(high).ok()?;
    let low = u32::try_from(low).ok()?;
    Some(Some(u64::from(high) * HALF + u64::from(low)))
}

/// How many members a digest takes.
fn one(digest: Option<u64>) -> usize
    ensures { result ≡ spec.one digest }
{
    digest.map_or(0, |_| 1)
}

/// Whether the value is an object of so many members.
fn has_members(value: &Value, count: usize) -> bool
    ensures { result ≡ spec.has_members count (view value.now) }
{
    match value.as_object() {
        Some(members) => members.len() == count,
        None => false,
    }
}
