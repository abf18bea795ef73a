//! Characters as a string, and how many identifiers are inserted.
ghost use Rattle.std.specs.Prelude.{◌≡◌, ◌≤◌, IfOk, IfErr, string_bytes, encode_utf8_all};
ghost use Rattle.std.specs.FinMap as finite_map;
ghost use Rattle.rga_store.specs.declared.text_store.TheConstants.{MAX_LIMIT};

use rga_ops::OutOfMemory;
use rga_records::Records;
use std::alloc::Global;

/// Characters in UTF-8. `Memory` alone.
pub(crate) fn string_of(alloc: Global, chars: &[char]) -> Result<String, OutOfMemory>
    ensures ok { IfOk result (λ string. string_bytes string ≡ encode_utf8_all chars.now) }
{
    let mut string = String::with_capacity(alloc, chars.len())?;
    for ch in chars {
        string.push(*ch)?;
    }
    Ok(string)
}

/// How many identifiers are inserted, which are no more than a limit may be.
pub(crate) fn count_inserted(records: &Records) -> usize
    ensures count { result ≡ finite_map.len records.now.content.inserted }
    ensures few { result ≤ MAX_LIMIT }
{
    let _limit = records.limit();
    let _known = records.known();
    records.inserted()
}
