//! A sequence beside a plain list.
use crate::plain_list::PlainList;
use rga_ops::{Id, Refusal};
use rga_sequence::{Entry, Near, Put, Sequence};
use std::alloc::Global;
use test_fixtures::{Random, same};

/// How many steps a run has; a block has at most 256 entries.
const STEPS: u64 = 900;

/// How many steps are taken between two looks at all that there is.
const BETWEEN: u64 = 90;

/// Of 16 steps so many put an entry and so many more delete one; the others take one out.
#[derive(Clone, Copy)]
struct Mixture {
    seed: u64,
    puts: usize,
    deletions: usize,
    typing: bool,
}

/// A sequence, and the same entries in a plain list.
#[derive(Drop)]
struct Both {
    sequence: Sequence,
    list: PlainList,
}

/// Some place in the block of a name: whatever index is told, the answers are the same.
fn near(name: usize) -> Near {
    Near {
        block: name,
        index: name,
    }
}

/// An entry is put behind its parent, which has to be there.
fn put_below(
    sequence: &mut Sequence,
    parent: Id,
    name: usize,
    entry: &Entry,
) -> Result<Put, Refusal> {
    if sequence.contains(entry.id, near(name)) {
        return Err(Refusal::Range);
    }
    if parent == Id::ROOT {
        return Ok(sequence.put(parent, near(name), *entry)?);
    }
    if !sequence.contains(parent, near(name)) {
        return Err(Refusal::Range);
    }
    Ok(sequence.put(parent, near(name), *entry)?)
}

/// The entries of a new block have its name.
fn rename(sequence: &Sequence, list: &mut PlainList, name: usize) {
    if let Some(entries) = sequence.block(name) {
        list.rename(entries, name);
    }
}

/// An entry goes behind a row, or to the front. It is larger than its parent, and mostly than all.
fn put(both: &mut Both, random: &mut Random, step: u64, typing: bool) -> Result<(), Refusal> {
    let mut behind = both.list.rows.len();
    if !typing {
        behind = random.below(behind.saturating_add(1));
    }
    let (parent, _) = both.list.parent(behind);
    let mut counter = step.saturating_add(1);
    if random.below(3) == 0 {
        counter = parent.counter().saturating_add(1);
    }
    let id = Id::new(counter, random.replica())?;
    if both.list.has(id) {
        return Ok(());
    }
    put_both(both, behind, id)
}

/// An entry goes behind a row into both, or to the front.
fn put_both(both: &mut Both, behind: usize, id: Id) -> Result<(), Refusal> {
    let (parent, name) = both.list.parent(behind);
    let entry = Entry {
        id,
        ch: 'a',
        deleted: false,
    };
    let put = put_below(&mut both.sequence, parent, name, &entry)?;
    if let Some(new_block) = put.new_block {
        rename(&both.sequence, &mut both.list, new_block);
    }
    both.list.put(behind, &entry, put.near.block)
}

/// An entry is put, deleted or taken out.
fn step(
    both: &mut Both,
    random: &mut Random,
    number: u64,
    mixture: Mixture,
) -> Result<(), Refusal> {
    let kind = random.below(16);
    if kind < mixture.puts {
        return put(both, random, number, mixture.typing);
    }
    let index = random.below(both.list.rows.len());
    if let Some(row) = both.list.at(index) {
        if kind < mixture.puts.saturating_add(mixture.deletions) {
            both.sequence.mark(row.entry.id, near(row.name), true);
            both.list.delete(index);
        } else {
            both.sequence.take_out(row.entry.id, near(row.name));
            both.list.take_out(index);
        }
    }
    Ok(())
}

/// Whether a list is the part of another from an index on.
fn is_part(part: &[Id], all: &[Id], lo: usize) -> bool {
    for (index, id) in part.iter().enumerate() {
        if all.get(lo.saturating_add(index)) != Some(id) {
            return false;
        }
    }
    true
}

/// Whether both show the same.
fn agree(alloc: Global, both: &Both, random: &mut Random) -> Result<bool, Refusal> {
    Ok(
        same(both.sequence.ids(alloc), both.list.ids(alloc, true))
            && same(both.sequence.text(alloc), both.list.text(alloc))
            && parts_agree(alloc, both, random)?
            && rows_agree(both),
    )
}

/// Whether a part of the visible entries is the same.
fn parts_agree(alloc: Global, both: &Both, random: &mut Random) -> Result<bool, Refusal> {
    let visible = both.list.ids(alloc, false)?;
    part_agrees(alloc, &both.sequence, &visible, random)
}

fn part_agrees(
    alloc: Global,
    sequence: &Sequence,
    visible: &[Id],
    random: &mut Random,
) -> Result<bool, Refusal> {
    let lo = random.below(visible.len().saturating_add(1));
    let hi = lo.saturating_add(random.below(300)).min(visible.len());
    let part = sequence.elements(alloc, lo, hi)?;
    Ok(
        part.len() == hi.saturating_sub(lo)
            && is_part(&part, visible, lo)
            && sequence.element_at(lo) == visible.get(lo).copied(),
    )
}

/// Whether each row is found, in the block that its name leads to.
fn rows_agree(both: &Both) -> bool {
    for row in &both.list.rows {
        let found = both.sequence.find(row.entry.id, near(row.name));
        if found != Some(row.entry) || !is_named(&both.sequence, row.name, row.entry.id) {
            return false;
        }
    }
    true
}

fn is_named(sequence: &Sequence, name: usize, id: Id) -> bool {
    match sequence.block(name) {
        Some(entries) => entries.iter().any(|entry| entry.id == id),
        None => false,
    }
}

/// Whether all steps go well, and both show the same behind them.
fn stay_alike(alloc: Global, both: &mut Both, mixture: Mixture) -> Result<bool, Refusal> {
    let mut random = Random::new(mixture.seed);
    for number in 0..STEPS {
        step(both, &mut random, number, mixture)?;
        if number.checked_rem(BETWEEN) == Some(0) && !agree(alloc, both, &mut random)? {
            return Ok(false);
        }
    }
    Ok(true)
}

/// Whether a sequence and a plain list never differ.
fn is_alike(alloc: Global, mixture: Mixture) -> Result<bool, Refusal> {
    let mut both = Both {
        sequence: Sequence::new(alloc),
        list: PlainList::new(alloc),
    };
    stay_alike(alloc, &mut both, mixture)
}

#[test]
fn a_sequence_is_the_plain_list(rt: HostRuntime) {
    for (name, seed, puts, deletions, typing) in &[
        ("put anywhere", 1u64, 16usize, 0usize, false),
        ("put in a row", 2, 16, 0, true),
        ("put, deleted and taken out", 3, 12, 3, false),
        ("taken out mostly", 4, 9, 0, false),
    ] {
        let mixture = Mixture {
            seed: *seed,
            puts: *puts,
            deletions: *deletions,
            typing: *typing,
        };
        let alike = is_alike(rt.alloc(), mixture);
        assert!(rt; alike == Ok(true), "{name}");
    }
}
