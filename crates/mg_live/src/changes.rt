//! Changes of the live buffer's text, as splices.
ghost use Rattle.std.specs.Prelude.{◌≡◌, ◌≤◌, ◌<◌, ◌+◌, ◌-◌, ◌++◌, ◌∷◌, [], true, length, reverse, take, drop, vec_capacity, IfOk, OnOk, OnErr};
ghost use Rattle.mg_live.specs.Changes as spec;

use rga_doc::Characters;
use rga_ops::{OutOfMemory, Splice};
use std::alloc::{AllocError, Global};
use std::marker::Model;

/// How much of a text is known to be as it was: so many characters at its beginning, and at its end.
#[derive(Clone, Copy)]
pub(crate) struct Kept {
    pub(crate) front: usize,
    pub(crate) end: usize,
}

impl Kept {
    /// Nothing is known.
    pub(crate) const NOTHING: Kept = Kept { front: 0, end: 0 };
}

/// The text as it was told last, how many changes were told since the start, and those of this block.
#[derive(Drop)]
pub(crate) struct Changes {
    alloc: Global,
    text: Characters,
    count: u64,
    pub(crate) list: Vec<Splice>,
}

impl Model for Changes {
    ghost use Rattle.mg_live.specs.Changes as spec;

    ghost Value = { spec.Changes };

    ghost view = { λ c. record { text = c.text.items; count = c.count; list = c.list.items } };
}

impl Changes {
    /// An empty text, and no change. Takes no memory.
    pub(crate) fn new(alloc: Global) -> Changes
        ensures { result ≡ spec.no_changes }
    {
        Changes {
            alloc,
            text: Characters::of(Vec::new(alloc)),
            count: 0,
            list: Vec::new(alloc),
        }
    }

    /// The text is this now, of which so much is as it was told: where it is another one, a change
    /// is told. Out of memory alone, and nothing changes then.
    pub(crate) fn note(&mut self, text: &[char], kept: Kept) -> Result<(), OutOfMemory>
        requires { spec.AreKept kept self.old.text text.now }
        ensures noted { OnOk result (self.new ≡ spec.noted text.now self.old) }
        ensures same { OnErr result (self.new ≡ self.old) }
    {
        let Some(change) = change_between(self.alloc, self.text.as_slice(), text, kept)? else {
            return Ok(());
        };
        self.list.reserve(1)?;
        self.text.make_room(change.put.len())?;
        self.text.replace(change.lo, change.hi, &change.put);
        push_change(&mut self.list, change);
        self.count = self.count.saturating_add(1);
        Ok(())
    }

    /// How many characters the text has that was told last.
    pub(crate) fn text_len(&self) -> usize
        ensures { result ≡ length self.now.text }
    {
        self.text.len()
    }
}

/// Adds a change, for which there is room.
fn push_change(changes: &mut Vec<Splice>, change: Splice)
    requires { length changes.old.items < vec_capacity changes.old }
    ensures { changes.new.items ≡ changes.old.items ++ change ∷ [] }
{
    let _ = changes.push(change);
}

/// How many characters are compared at once: most of two texts is alike.
const BLOCK: usize = 64;

/// Whether two texts of one length are the same. Each character is looked at, so that a processor
/// compares many at once.
fn are_alike(old: &[char], new: &[char]) -> bool
    requires { length old.now ≡ length new.now }
    ensures { result ≡ true → old.now ≡ new.now }
{
    let mut alike = true;
    for (one, other) in old.iter().zip(new) {
        alike &= *one == *other;
    }
    alike
}

/// Whether two texts have a block in common at their beginnings.
fn begin_alike(old: &[char], new: &[char]) -> bool
    ensures old { result ≡ true → 64 ≤ length old.now }
    ensures new { result ≡ true → 64 ≤ length new.now }
    ensures alike { result ≡ true → take 64 old.now ≡ take 64 new.now }
{
    if old.len() < BLOCK || new.len() < BLOCK {
        return false;
    }
    are_alike(&old[..BLOCK], &new[..BLOCK])
}

/// Whether they have one in common at their ends.
fn end_alike(old: &[char], new: &[char]) -> bool
    ensures old { result ≡ true → 64 ≤ length old.now }
    ensures new { result ≡ true → 64 ≤ length new.now }
    ensures alike { result ≡ true →
        drop (length old.now - 64) old.now ≡ drop (length new.now - 64) new.now }
{
    if old.len() < BLOCK || new.len() < BLOCK {
        return false;
    }
    are_alike(&old[old.len() - BLOCK..], &new[new.len() - BLOCK..])
}

/// How many characters two texts have in common at their beginnings, by whole blocks after those that
/// are known.
fn common_blocks(old: &[char], new: &[char], known: usize) -> usize
    requires old { known ≤ length old.now }
    requires new { known ≤ length new.now }
    requires alike { take known old.now ≡ take known new.now }
    ensures exact { result + spec.common_front (drop result old.now) (drop result new.now)
        ≡ spec.common_front old.now new.now }
    ensures old { result ≤ length old.now }
    ensures new { result ≤ length new.now }
{
    let mut count = known;
    'blocks: while begin_alike(&old[count..], &new[count..]) {
        count += BLOCK;
    }
    count
}

/// The same at their ends.
fn common_end_blocks(old: &[char], new: &[char], known: usize) -> usize
    requires old { known ≤ length old.now }
    requires new { known ≤ length new.now }
    requires alike { drop (length old.now - known) old.now
        ≡ drop (length new.now - known) new.now }
    ensures exact { result
        + spec.common_front (drop result (reverse old.now)) (drop result (reverse new.now))
        ≡ spec.common_end old.now new.now }
    ensures old { result ≤ length old.now }
    ensures new { result ≤ length new.now }
{
    let mut count = known;
    'blocks: while end_alike(&old[..old.len() - count], &new[..new.len() - count]) {
        count += BLOCK;
    }
    count
}

/// How many characters two texts have in common at their beginnings, of which so many are known.
#[tactic(auto, using(crate::proofs::ChangeLaws::new_ended))]
fn common_front(old: &[char], new: &[char], known: usize) -> usize
    requires old { known ≤ length old.now }
    requires new { known ≤ length new.now }
    requires alike { take known old.now ≡ take known new.now }
    ensures exact { result ≡ spec.common_front old.now new.now }
    ensures old { result ≤ length old.now }
    ensures new { result ≤ length new.now }
{
    let mut count = common_blocks(old, new, known);
    'alike: while count < old.len() && count < new.len() && old[count] == new[count] {
        count += 1;
    }
    count
}

/// How many they have in common at their ends, of which so many are known.
#[tactic(auto, using(std::proofs::lemmas::Grind::common_steps, crate::proofs::ChangeLaws::at_ends))]
fn common_end(old: &[char], new: &[char], known: usize) -> usize
    requires old { known ≤ length old.now }
    requires new { known ≤ length new.now }
    requires alike { drop (length old.now - known) old.now
        ≡ drop (length new.now - known) new.now }
    ensures exact { result ≡ spec.common_end old.now new.now }
    ensures old { result ≤ length old.now }
    ensures new { result ≤ length new.now }
{
    let mut count = common_end_blocks(old, new, known);
    'alike: while count < old.len()
        && count < new.len()
        && old[old.len() - 1 - count] == new[new.len() - 1 - count]
    {
        count += 1;
    }
    count
}

/// The change that makes one text the other, of which so much is the same; none where all is.
fn change_between(
    alloc: Global,
    old: &[char],
    new: &[char],
    kept: Kept,
) -> Result<Option<Splice>, AllocError>
    requires { spec.AreKept kept old.now new.now }
    ensures { IfOk result (λ change. change ≡ spec.change_between old.now new.now) }
{
    let lo = common_front(old, new, kept.front);
    let known = kept.end.min(old.len() - lo).min(new.len() - lo);
    let same = common_end(&old[lo..], &new[lo..], known);
    let hi = old.len() - same;
    let put = &new[lo..new.len() - same];
    if lo == hi && put.is_empty() {
        return Ok(None);
    }
    let put = Vec::from_slice(alloc, put)?;
    Ok(Some(Splice { lo, hi, put }))
}

/// How many changes were told, where they are asked for.
pub(crate) fn change_count(changes: &Option<Changes>) -> u64
    ensures { result ≡ spec.change_count changes.now }
{
    match changes {
        Some(changes) => changes.count,
        None => 0,
    }
}
