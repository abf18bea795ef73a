//! The claims of a summary, and the summary of claims.
ghost use Rattle.std.specs.Prelude.{◌≡◌, IfOk, IfErr, OnOk};
ghost use Rattle.rga_brief.specs.Summaries.{claims_of, put_claim, put_claims, summary_from};

use crate::block::Block;
use crate::claim::Claim;
use crate::digests::Digests;
use crate::summary::Summary;
use rga_ops::OutOfMemory;
use std::alloc::Global;
use std::collections::BTreeMap;

/// The claims of a summary, by rising block. `Memory` alone.
pub fn claims_of(alloc: Global, summary: &Summary) -> Result<Vec<Claim>, OutOfMemory>
    ensures ok { IfOk result (λ claims. claims.items ≡ claims_of summary.now) }
{
    let mut claims = Vec::new(alloc);
    for (block, digests) in summary.digests() {
        claims.push(Claim {
            block: *block,
            digests: *digests,
        })?;
    }
    Ok(claims)
}

/// The summary of these claims: of two of one block the later counts. `Memory` alone.
pub fn summary_from(alloc: Global, claims: &[Claim]) -> Result<Summary, OutOfMemory>
    ensures ok { IfOk result (λ summary. summary ≡ summary_from claims.now) }
{
    let mut digests = BTreeMap::new(alloc);
    put_all(claims, &mut digests)?;
    Ok(Summary::claimed(digests))
}

/// Each claim is put among the digests.
fn put_all(claims: &[Claim], digests: &mut BTreeMap<Block, Digests>) -> Result<(), OutOfMemory>
    ensures ok { OnOk result (digests.new.entries ≡ put_claims digests.old.entries claims.now) }
{
    for claim in claims {
        put(*claim, digests)?;
    }
    Ok(())
}

fn put(claim: Claim, digests: &mut BTreeMap<Block, Digests>) -> Result<(), OutOfMemory>
    ensures ok { OnOk result (digests.new.entries ≡ put_claim digests.old.entries claim) }
{
    let _replaced = digests.insert(claim.block, claim.digests)?;
    Ok(())
}
