//! Sites that edit, save, restart and take what others have saved.
use rga_ops::Refusal;
use rga_store::TextStore;
use rga_tree::TreeStore;
use rga_world::{Event, World, WorldRefusal};
use std::alloc::Global;
use std::process::Abort;
use test_fixtures::{are_ops_of, id, prints, spells};

type Trees = World<TreeStore>;

/// What is done with a world, or asked of it.
#[derive(Clone, Copy)]
enum Step {
    /// A site replaces the characters of a range by the text.
    Edit(usize, (usize, usize), &'static str),
    Save(usize),
    /// A site, and the place of the operation.
    SaveOne(usize, usize),
    Restart(usize),
    /// A taker, a giver, and the place of the operation.
    Deliver(usize, usize, usize),
    /// A taker, a giver, and the places of the operations.
    DeliverList(usize, usize, (usize, usize)),
    /// A site undoes an edit that inserted one element and deleted another one, of this character.
    Revert(usize, (u64, u16), (u64, u16), char),
    /// The text of a site.
    Text(usize),
    /// The operations that a site has saved.
    Saved(usize),
}

/// A step, and what is answered: what is printed, or else a text or operations, in words.
type Row = (Step, &'static str);

/// The edit of a site that replaces the characters of a range.
fn edit(
    alloc: Global,
    site: usize,
    (lo, hi): (usize, usize),
    text: &str,
) -> Result<Event, Refusal> {
    let put = text.chars().collect::<Vec<char>>(alloc)?;
    Ok(Event::Edit { site, lo, hi, put })
}

/// The undo at a site of an edit that replaced one element, of this character, by another one.
fn revert(
    alloc: Global,
    site: usize,
    gone: (u64, u16),
    back: (u64, u16),
    ch: char,
) -> Result<Event, Refusal> {
    let mut inserted = Vec::new(alloc);
    inserted.push(id(gone.0, gone.1)?)?;
    let mut deleted = Vec::new(alloc);
    deleted.push((id(back.0, back.1)?, ch))?;
    Ok(Event::Revert {
        site,
        gone: inserted,
        back: deleted,
    })
}

fn shows<S: TextStore>(world: &World<S>, site: usize, text: &str) -> bool {
    match world.text(site) {
        Ok(chars) => spells(&chars, text),
        Err(_) => false,
    }
}

fn has_saved<S: TextStore>(alloc: Global, world: &World<S>, site: usize, words: &str) -> bool {
    match world.saved_ops(site) {
        Ok(ops) => are_ops_of(alloc, &ops, words),
        Err(_) => false,
    }
}

/// Whether that is answered to a step.
fn answers<S: TextStore>(
    alloc: Global,
    world: &mut World<S>,
    step: Step,
    answer: &str,
) -> Result<bool, Refusal> {
    let event = match step {
        Step::Edit(site, range, text) => edit(alloc, site, range, text)?,
        Step::Save(site) => Event::Save { site },
        Step::SaveOne(site, place) => Event::SaveOne { site, place },
        Step::Restart(site) => Event::Restart { site },
        Step::Deliver(taker, giver, place) => Event::Deliver {
            taker,
            giver,
            place,
        },
        Step::DeliverList(taker, giver, (lo, hi)) => Event::DeliverList {
            taker,
            giver,
            lo,
            hi,
        },
        Step::Revert(site, gone, back, ch) => revert(alloc, site, gone, back, ch)?,
        Step::Text(site) => return Ok(shows(world, site, answer)),
        Step::Saved(site) => return Ok(has_saved(alloc, world, site, answer)),
    };
    Ok(prints(alloc, &world.step(&event), answer))
}

fn go<S: TextStore>(rt: &impl Abort, alloc: Global, world: &mut World<S>, rows: &[Row]) {
    for (index, (step, answer)) in rows.iter().enumerate() {
        let answered = answers(alloc, world, *step, answer);
        assert!(rt; answered == Ok(true), "row {index}: {answer}");
    }
}

/// A world of so many sites answers each row in turn.
fn walk(rt: &impl Abort, alloc: Global, sites: usize, rows: &[Row]) {
    let mut world = Trees::new(alloc, sites, 100).expect(rt, "a world");
    go(rt, alloc, &mut world, rows);
}

#[test]
fn lost_identifier_is_used_once_more(rt: HostRuntime) {
    const ROWS: &[Row] = &[
        (Step::Edit(0, (0, 0), "a"), "Ok(())"),
        (Step::Restart(0), "Ok(())"),
        (Step::Text(0), ""),
        (Step::Edit(0, (0, 0), "b"), "Ok(())"),
        (Step::Save(0), "Ok(())"),
        (Step::Deliver(1, 0, 0), "Ok(())"),
        (Step::Text(0), "b"),
        (Step::Text(1), "b"),
        (Step::Saved(0), "b1.1<0.0"),
        (Step::Saved(1), ""),
        (Step::Deliver(1, 0, 1), "Err(NoOperation)"),
        (Step::Edit(2, (0, 0), "c"), "Err(NoSite)"),
    ];
    walk(&rt, rt.alloc(), 2, ROWS);
}

#[test]
fn part_of_a_save_stays(rt: HostRuntime) {
    const ROWS: &[Row] = &[
        (Step::Edit(0, (0, 0), "abc"), "Ok(())"),
        (Step::SaveOne(0, 2), "Ok(())"),
        (Step::SaveOne(0, 2), "Ok(())"),
        (Step::SaveOne(0, 0), "Ok(())"),
        (Step::SaveOne(0, 3), "Err(NoOperation)"),
        (Step::SaveOne(2, 0), "Err(NoSite)"),
        (Step::Text(0), "abc"),
        (Step::Saved(0), "a1.1<0.0 c3.1<2.1"),
        (Step::Deliver(1, 0, 1), "Ok(())"),
        (Step::Text(1), ""),
        (Step::Restart(0), "Ok(())"),
        (Step::Text(0), "a"),
        (Step::Edit(0, (1, 1), "d"), "Ok(())"),
        (Step::Save(0), "Ok(())"),
        (Step::Saved(0), "a1.1<0.0 c3.1<2.1 d4.1<1.1"),
    ];
    walk(&rt, rt.alloc(), 2, ROWS);
}

#[test]
fn deliveries_in_any_order_and_repeated(rt: HostRuntime) {
    const ROWS: &[Row] = &[
        (Step::Edit(0, (0, 0), "a"), "Ok(())"),
        (Step::Save(0), "Ok(())"),
        (Step::Deliver(1, 0, 0), "Ok(())"),
        (Step::Edit(1, (1, 1), "b"), "Ok(())"),
        (Step::Save(1), "Ok(())"),
        (Step::Restart(1), "Ok(())"),
        (Step::Text(1), "ab"),
        (Step::Saved(1), "a1.1<0.0 b2.2<1.1"),
        (Step::Deliver(2, 1, 1), "Ok(())"),
        (Step::Text(2), ""),
        (Step::Deliver(2, 1, 0), "Ok(())"),
        (Step::Text(2), "ab"),
        (Step::Deliver(0, 1, 1), "Ok(())"),
        (Step::Deliver(0, 1, 1), "Ok(())"),
        (Step::Text(0), "ab"),
        (Step::Edit(0, (0, 1), ""), "Ok(())"),
        (Step::Text(0), "b"),
        (Step::Deliver(1, 0, 1), "Err(NoOperation)"),
        (Step::Save(0), "Ok(())"),
        (Step::Deliver(1, 0, 2), "Ok(())"),
        (Step::Text(1), "b"),
    ];
    walk(&rt, rt.alloc(), 3, ROWS);
}

#[test]
fn an_undo_is_delivered_with_all_else(rt: HostRuntime) {
    const ROWS: &[Row] = &[
        (Step::Edit(0, (0, 0), "a"), "Ok(())"),
        (Step::Edit(0, (0, 1), "b"), "Ok(())"),
        (Step::Text(0), "b"),
        (Step::Revert(0, (2, 1), (1, 1), 'a'), "Ok(())"),
        (Step::Text(0), "a"),
        (Step::Save(0), "Ok(())"),
        (Step::Saved(0), "a1.1<0.0 b2.1<0.0 a3.1<1.1 -1.1 -2.1"),
        (Step::DeliverList(1, 0, (3, 6)), "Err(NoOperation)"),
        (Step::DeliverList(1, 0, (4, 2)), "Err(NoOperation)"),
        (Step::Text(1), ""),
        (Step::DeliverList(1, 0, (1, 4)), "Ok(())"),
        (Step::Text(1), "b"),
        (Step::DeliverList(1, 0, (0, 5)), "Ok(())"),
        (Step::Text(1), "a"),
    ];
    walk(&rt, rt.alloc(), 2, ROWS);
}

/// Whether a world of so many sites with this limit is refused so, or made where no refusal is named.
fn is_refused<S: TextStore>(
    alloc: Global,
    sites: usize,
    limit: usize,
    refusal: Option<WorldRefusal>,
) -> bool {
    World::<S>::new(alloc, sites, limit).err() == refusal
}

#[test]
fn worlds_of_no_sites_and_of_too_many(rt: HostRuntime) {
    for (sites, limit, refusal) in [
        (0, 5, Some(WorldRefusal::NoSite)),
        (65, 5, Some(WorldRefusal::NoSite)),
        (64, 5, None),
        (2, 0, Some(WorldRefusal::Store(Refusal::Range))),
    ] {
        let refused = is_refused::<TreeStore>(rt.alloc(), sites, limit, refusal);
        assert!(rt; refused, "{sites} {limit}");
    }
}

/// Two edits of a site, and a save.
fn events(alloc: Global) -> Result<Vec<Event>, Refusal> {
    let mut events = Vec::new(alloc);
    events.push(edit(alloc, 0, (0, 0), "a")?)?;
    events.push(edit(alloc, 0, (1, 1), "b")?)?;
    events.push(Event::Save { site: 0 })?;
    Ok(events)
}

/// Whether a run of a world that has room for one element stops at the second.
fn stops_at_the_second<S: TextStore>(
    alloc: Global,
    world: &mut World<S>,
    events: &[Event],
) -> bool {
    world.run(events) == Err((1, WorldRefusal::Store(Refusal::Full)))
        && shows(world, 0, "a")
        && has_saved(alloc, world, 0, "")
}

#[test]
fn run_stops_at_the_first_refusal(rt: HostRuntime) {
    let mut world = Trees::new(rt.alloc(), 2, 1).expect(&rt, "a world");
    let events = events(rt.alloc()).expect(&rt, "events");
    assert!(rt; stops_at_the_second(rt.alloc(), &mut world, &events));
}
