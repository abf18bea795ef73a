//! Identifiers and operations at the edges of their ranges.
use rga_ops::{Id, Refusal};
use std::alloc::Global;
use test_fixtures::{id, op_of, prints};

/// Whether an identifier of this counter and replica, which tells both, is made if it fits; and
/// `BadId` answered if not.
fn is_made(counter: u64, replica: u16, fits: bool) -> bool {
    match Id::new(counter, replica) {
        Ok(id) => fits && (id.counter(), id.replica()) == (counter, replica),
        Err(refusal) => !fits && refusal == Refusal::BadId,
    }
}

#[test]
fn identifiers_are_within_their_ranges(rt: HostRuntime) {
    for (counter, replica, fits) in &[
        (1u64, 1u16, true),
        (9007199254740991, 65535, true),
        (0, 0, false),
        (0, 1, false),
        (1, 0, false),
        (9007199254740992, 1, false),
        (u64::MAX, 1, false),
    ] {
        assert!(rt; is_made(*counter, *replica, *fits), "{counter} {replica}");
    }
}

/// Whether the first of two identifiers is the smaller one.
fn rises(smaller: (u64, u16), larger: (u64, u16)) -> Result<bool, Refusal> {
    Ok(id(smaller.0, smaller.1)? < id(larger.0, larger.1)?)
}

#[test]
fn identifiers_are_ordered_by_counter_and_then_by_replica(rt: HostRuntime) {
    for (smaller, larger) in &[
        ((0u64, 0u16), (1u64, 1u16)),
        ((1, 65535), (2, 1)),
        ((2, 1), (2, 2)),
    ] {
        let rises = rises(*smaller, *larger);
        assert!(rt; rises == Ok(true), "{smaller:?} {larger:?}");
    }
}

/// Whether the operation that the word says has this identifier, and its check this answer.
fn is_checked(alloc: Global, word: &str, (counter, replica): (u64, u16), answer: &str) -> bool {
    match op_of(word) {
        Ok(op) => Ok(op.id()) == id(counter, replica) && prints(alloc, &op.check(), answer),
        Err(_) => false,
    }
}

#[test]
fn well_formed_operations(rt: HostRuntime) {
    for (word, id, answer) in &[
        ("a2.1<0.0", (2u64, 1u16), "Ok(())"),
        ("a2.1<1.9", (2, 1), "Ok(())"),
        ("a2.1<2.2", (2, 1), "Err(BadOrder)"),
        ("a2.1<3.1", (2, 1), "Err(BadOrder)"),
        ("a0.0<2.1", (0, 0), "Err(BadId)"),
        ("-2.1", (2, 1), "Ok(())"),
        ("-0.0", (0, 0), "Err(BadId)"),
    ] {
        assert!(rt; is_checked(rt.alloc(), word, *id, answer), "{word}");
    }
}
