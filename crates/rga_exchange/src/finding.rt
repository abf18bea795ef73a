//! Operations of a content, found in their list.
ghost use Rattle.std.specs.Prelude.{◌≡◌, ◌<◌, ◌+◌, true, false, length};
ghost use Rattle.rga_ops.specs.Prelude.{operations, content_of, element_at};
ghost use Rattle.rga_exchange.specs.Finding.{is_below, AreBelowUpTo, AreNotBelowFrom, IsPlaceOf, element_of_op, is_deletion_of};
ghost use Rattle.std.specs.FinSet as finite_set;

use rga_ops::{Id, Op};

/// The parent and the character of an insertion of a content whose operations these are. It is
/// looked for from an index on, which becomes its place: one that is near behind it takes a few
/// comparisons. Whatever the index is, the answer is the same.
pub(crate) fn element_in(ops: &[Op], near: &mut usize, id: Id) -> Option<(Id, char)>
    requires { ops.now ≡ operations (content_of ops.now) }
    ensures { result ≡ element_at (content_of ops.now) id }
{
    let place = place_of(ops, *near, false, id);
    *near = place;
    if place >= ops.len() {
        return None;
    }
    element_of(&ops[place], id)
}

/// Whether an identifier is deleted in such a content. The deletion is looked for in the same way.
pub(crate) fn is_deleted_in(ops: &[Op], near: &mut usize, id: Id) -> bool
    requires { ops.now ≡ operations (content_of ops.now) }
    ensures { result ≡ finite_set.contains (content_of ops.now).deleted id }
{
    let place = place_of(ops, *near, true, id);
    *near = place;
    if place >= ops.len() {
        return false;
    }
    is_deletion_of(&ops[place], id)
}

/// Where the insertion of an identifier is or would be, or its deletion.
fn place_of(ops: &[Op], near: usize, deletion: bool, id: Id) -> usize
    requires { ops.now ≡ operations (content_of ops.now) }
    ensures { IsPlaceOf deletion id ops.now result }
{
    if goes_on(ops, near, deletion, id) {
        return place_from(ops, near + 1, deletion, id);
    }
    place_between(ops, 0, near, deletion, id)
}

/// The same, looked for from an index on in steps that double, and then between the last two.
fn place_from(ops: &[Op], first: usize, deletion: bool, id: Id) -> usize
    requires all { ops.now ≡ operations (content_of ops.now) }
    requires below { AreBelowUpTo deletion id ops.now first }
    ensures { IsPlaceOf deletion id ops.now result }
{
    let mut low = first;
    let mut high = first;
    while goes_on(ops, high, deletion, id) {
        low = high + 1;
        high = low.saturating_add(low - first);
    }
    place_between(ops, low, high, deletion, id)
}

/// The same, looked for by halves.
fn place_between(ops: &[Op], from: usize, to: usize, deletion: bool, id: Id) -> usize
    requires all { ops.now ≡ operations (content_of ops.now) }
    requires below { AreBelowUpTo deletion id ops.now from }
    requires behind { AreNotBelowFrom deletion id ops.now to }
    ensures { IsPlaceOf deletion id ops.now result }
{
    let mut low = from;
    let mut high = to;
    while low < high {
        let middle = low + (high - low) / 2;
        if goes_on(ops, middle, deletion, id) {
            low = middle + 1;
        } else {
            high = middle;
        }
    }
    low
}

/// Whether there is an operation at an index that comes before that one.
fn goes_on(ops: &[Op], place: usize, deletion: bool, id: Id) -> bool
    requires { ops.now ≡ operations (content_of ops.now) }
    ensures within { result ≡ true → place < length ops.now }
    ensures below { result ≡ true → AreBelowUpTo deletion id ops.now (place + 1) }
    ensures behind { result ≡ false → AreNotBelowFrom deletion id ops.now place }
{
    if place >= ops.len() {
        return false;
    }
    is_below(&ops[place], deletion, id)
}

/// Whether an operation comes before the insertion of an identifier, or before its deletion.
fn is_below(op: &Op, deletion: bool, id: Id) -> bool
    ensures { result ≡ is_below deletion id op.now }
{
    match op {
        Op::Insert { id: at, .. } => deletion || *at < id,
        Op::Delete { id: at } => deletion && *at < id,
    }
}

/// The parent and the character of an operation, if it is the insertion of an identifier.
fn element_of(op: &Op, id: Id) -> Option<(Id, char)>
    ensures { result ≡ element_of_op id op.now }
{
    match op {
        Op::Insert { id: at, parent, ch } if *at == id => Some((*parent, *ch)),
        _ => None,
    }
}

/// Whether an operation is the deletion of an identifier.
fn is_deletion_of(op: &Op, id: Id) -> bool
    ensures { result ≡ is_deletion_of id op.now }
{
    match op {
        Op::Insert { .. } => false,
        Op::Delete { id: at } => *at == id,
    }
}
