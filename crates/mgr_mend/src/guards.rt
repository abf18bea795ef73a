//! What keeps logs of other notes, and broken ones, out of a note.
ghost use Rattle.std.specs.Prelude.{◌≡◌, ◌||◌, ◌∷◌, [], ◌<◌, length, IfOk, MatchOption};
ghost use Rattle.std.specs.List.{list_any};
ghost use Rattle.rga_lines.specs.Log.{operations_of};
ghost use Rattle.mgr_show.specs.Joined.{is_far};
ghost use Rattle.mgr_mend.specs.Mending.{all_lines};
ghost use Rattle.mgr_mend.specs.Taking.{are_any, are_untied, is_apart, is_known, is_tied};

use crate::reading::operations_of_line;
use memchr::memchr;
use rga_ops::{Id, Op, OutOfMemory};
use rga_store::TextStore;
use std::alloc::Global;

/// By how much a counter may be above all that a note knows: who takes one that is far above can
/// make few operations more.
const NEAR: u64 = 4294967296;

/// Whether a log has operations, a store has some, and none of the log's is tied to these. The log
/// is read up to the first line that has one that is tied.
pub(crate) fn is_apart<S: TextStore>(
    alloc: Global,
    store: &S,
    bytes: &[u8],
) -> Result<bool, OutOfMemory>
    ensures { IfOk result (λ apart. apart ≡ is_apart (S.content store.now) bytes.now) }
{
    if store.known() == 0 {
        return Ok(false);
    }
    are_untied(alloc, store, bytes)
}

/// Whether a log has operations, and none is tied to what a store holds.
fn are_untied<S: TextStore>(alloc: Global, store: &S, bytes: &[u8]) -> Result<bool, OutOfMemory>
    ensures { IfOk result (λ untied. untied
        ≡ are_untied (S.content store.now) (operations_of (all_lines bytes.now))) }
{
    let mut some = false;
    let mut rest = bytes;
    'lines: loop {
        let (line, behind) = first_line(rest);
        let Some(ops) = operations_of_line(alloc, line)? else {
            return Ok(some);
        };
        if is_any_tied(store, &ops) {
            return Ok(false);
        }
        some = is_either(some, are_any(&ops));
        let Some(behind) = behind else {
            return Ok(some);
        };
        rest = behind;
    }
}

fn is_either(some: bool, more: bool) -> bool
    ensures { result ≡ (some || more) }
{
    some || more
}

fn are_any(ops: &[Op]) -> bool
    ensures { result ≡ are_any ops.now }
{
    !ops.is_empty()
}

/// The first line without its newline, and what stands after it. The rest counts as a line.
fn first_line(bytes: &[u8]) -> (&[u8], Option<&[u8]>)
    ensures { MatchOption result.1 (all_lines bytes.now ≡ result.0.now ∷ [])
        (λ behind. (all_lines bytes.now ≡ result.0.now ∷ all_lines behind.now)
        × (length behind.now < length bytes.now)) }
{
    match memchr(b'\n', bytes) {
        Some(end) => (&bytes[..end], Some(&bytes[end + 1..])),
        None => (bytes, None),
    }
}

/// Whether one of these operations is tied to what a store holds.
fn is_any_tied<S: TextStore>(store: &S, ops: &[Op]) -> bool
    ensures { result ≡ list_any (is_tied (S.content store.now)) ops.now }
{
    for op in ops {
        if is_tied(store, op) {
            return true;
        }
    }
    false
}

/// Whether an operation is held, or the element is known that it stands behind, or that it deletes.
fn is_tied<S: TextStore>(store: &S, op: &Op) -> bool
    ensures { result ≡ is_tied (S.content store.now) op.now }
{
    match *op {
        Op::Insert { id, parent, ch } => match store.get(id) {
            Some(element) if element == (parent, ch) => true,
            _ => is_known(store, parent),
        },
        Op::Delete { id } => is_known(store, id),
    }
}

/// Whether an element is inserted, deleted or both.
fn is_known<S: TextStore>(store: &S, id: Id) -> bool
    ensures { result ≡ is_known (S.content store.now) id }
{
    store.get(id).is_some() || store.is_deleted(id)
}

/// Whether what a store holds has a counter far above a clock.
pub(crate) fn is_far<S: TextStore>(store: &S, clock: u64) -> bool
    ensures { result ≡ is_far clock (S.content store.now) }
{
    let now = store.clock();
    if now <= clock {
        return false;
    }
    now - clock > NEAR
}
