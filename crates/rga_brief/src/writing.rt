//! Lines written.
ghost use Rattle.std.specs.Prelude.{◌≡◌, ◌≢◌, Some, IfOk, IfErr, OnOk, string_bytes};
ghost use Rattle.std.specs.List.{All};
ghost use Rattle.serde_json.specs.View.{view};
ghost use Rattle.rga_brief.specs.Claims.{IsInRange, claim_data, claim_in, claim_line, digest_data, pair_data};

use crate::claim::{Claim, HALF};
use rga_ops::OutOfMemory;
use serde_json::{Value, json};
use std::alloc::{AllocError, Global};

/// The line of a claim, without its newline, as `claim_line` of `specs/Claims.antt` has it: no
/// blanks, no newline, the members by their names, and no member for a digest that is not there.
/// `read_claim` gives the claim back. `Memory` is the only refusal.
pub fn write_claim(alloc: Global, claim: Claim) -> Result<String, OutOfMemory>
    ensures ok { IfOk result (λ text. string_bytes text ≡ claim_line claim) }
    ensures one_line { IfOk result (λ text. All (λ b. b ≢ 10) (string_bytes text)) }
    ensures reads_back { IfOk result (λ text. claim_in (string_bytes text) ≡ Some claim) }
    ensures range { OnOk result (IsInRange claim) }
{
    let value = value_of(alloc, claim)?;
    let text = value.to_string(alloc)?;
    Ok(text)
}

fn value_of(alloc: Global, claim: Claim) -> Result<Value, AllocError>
    ensures data { IfOk result (λ value. view value ≡ claim_data claim) }
    ensures range { OnOk result (IsInRange claim) }
{
    let block = pair(alloc, u64::from(claim.block.replica), claim.block.number)?;
    match claim.digests.deleted {
        None => match claim.digests.inserted {
            None => json!(in alloc; {"block": block}),
            Some(inserted) => {
                let inserted = digest(alloc, inserted)?;
                json!(in alloc; {"block": block, "ins": inserted})
            }
        },
        Some(deleted) => {
            let deleted = digest(alloc, deleted)?;
            match claim.digests.inserted {
                None => json!(in alloc; {"block": block, "del": deleted}),
                Some(inserted) => {
                    let inserted = digest(alloc, inserted)?;
                    json!(in alloc; {"block": block, "del": deleted, "ins": inserted})
                }
            }
        }
    }
}

/// A digest, as its two halves.
fn digest(alloc: Global, digest: u64) -> Result<Value, AllocError>
    ensures data { IfOk result (λ value. view value ≡ digest_data digest) }
{
    pair(alloc, digest / HALF, digest % HALF)
}

fn pair(alloc: Global, first: u64, second: u64) -> Result<Value, AllocError>
    ensures data { IfOk result (λ value. view value ≡ pair_data first second) }
{
    json!(in alloc; [first, second])
}
