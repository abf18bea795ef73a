//! What one store has and another lacks, by a summary that goes over in lines.
use rga_brief::{
    Block, Claim, Digests, Summary, claims_of, missing, read_claim, summary_from, summary_of,
    write_claim,
};
use rga_ops::{Op, Refusal};
use rga_store::{Teller, TextStore};
use rga_tree::TreeStore;
use std::alloc::Global;
use test_fixtures::{id, ops_of, store_of};

/// The claims, each written and read again.
fn read_again(alloc: Global, claims: &[Claim]) -> Result<Vec<Claim>, Refusal> {
    let mut found = Vec::new(alloc);
    for claim in claims {
        let line = write_claim(alloc, *claim)?;
        if let Some(said) = read_claim(alloc, line.as_str())? {
            found.push(said)?;
        }
    }
    Ok(found)
}

/// The claims of the summary of a store, each written and read.
fn claims_over<S: TextStore + Teller>(alloc: Global, store: &S) -> Result<Vec<Claim>, Refusal> {
    let summary = summary_of(alloc, store)?;
    read_again(alloc, &claims_of(alloc, &summary)?)
}

/// The summary of a store, by its claims.
fn summary_over<S: TextStore + Teller>(alloc: Global, store: &S) -> Result<Summary, Refusal> {
    Ok(summary_from(alloc, &claims_over(alloc, store)?)?)
}

/// The own operations, the other store's, and those that are missing there.
const MISSING: &[(&str, &str, &str)] = &[
    ("", "", ""),
    ("a1.1<0.0 b2.1<1.1 -1.1", "", "a1.1<0.0 b2.1<1.1 -1.1"),
    ("a1.1<0.0 -1.1", "b600.1<1.1 a1.1<0.0 -1.1", ""),
    ("a1.1<0.0 b600.1<1.1", "a1.1<0.0", "b600.1<1.1"),
    (
        "a1.1<0.0 b2.1<1.1 c3.1<2.1",
        "a1.1<0.0 c3.1<2.1",
        "a1.1<0.0 b2.1<1.1 c3.1<2.1",
    ),
    ("a1.1<0.0", "a1.1<0.0 b2.1<1.1", "a1.1<0.0"),
    ("b1.2<0.0", "a1.1<0.0 c1.3<0.0", "b1.2<0.0"),
    ("a1.1<0.0 -1.1", "a1.1<0.0", "-1.1"),
    (
        "a1.1<0.0 b2.1<1.1 -1.1",
        "a1.1<0.0 -1.1",
        "a1.1<0.0 b2.1<1.1",
    ),
    ("-1.1 -511.1 -512.1", "-1.1 -512.1", "-1.1 -511.1"),
    ("-1.1 -512.1", "-1.1 -511.1 -512.1", "-1.1"),
    ("-1.1 -1.2", "-1.1", "-1.2"),
    ("a1.1<0.0", "b1.1<0.0", "a1.1<0.0"),
    ("a1.2<0.0 b2.1<1.2", "a1.2<0.0 b2.1<0.0", "b2.1<1.2"),
    ("a1.1<0.0 b2.2<1.1", "a1.1<0.0 b2.2<1.3", "b2.2<1.1"),
];

#[test]
fn what_the_other_lacks_is_missing(rt: HostRuntime) -> Result<(), std::test::Fail> {
    let alloc = rt.alloc();
    for (own, other, expected) in MISSING {
        let store = store_of::<TreeStore>(alloc, 99, own)?;
        let peer = summary_over(alloc, &store_of::<TreeStore>(alloc, 99, other)?)?;
        let found = missing(alloc, &store, &peer)?;
        assert!(rt; found == ops_of(alloc, expected)?, "{own} without {other}");
    }
    Ok(())
}

/// Takes operations in turn, up to the first that is refused.
fn take_in_turn<S: TextStore>(store: &mut S, ops: &[Op]) -> Option<Refusal> {
    for op in ops {
        if let Err(refusal) = store.apply(*op) {
            return Some(refusal);
        }
    }
    None
}

const HELLO: &str = "h1.1<0.0 e2.1<1.1 l3.1<2.1 l4.1<3.1 o5.1<4.1";

const WORLD: &str = "w1.1<0.0 o2.1<1.1 r3.1<2.1 l4.1<3.1 d5.1<4.1";

const WORLDLY: &str = "w1.1<0.0 o2.1<1.1 r3.1<2.1 l4.1<3.1 d5.1<4.1 l6.1<5.1 y7.1<6.1";

/// The own operations, the other store's, and the identifier of the conflict that the other answers
/// when it takes what it lacks, if there is one.
const CONFLICTS: &[(&str, &str, Option<(u64, u16)>)] = &[
    (HELLO, WORLD, Some((1, 1))),
    (WORLD, HELLO, Some((1, 1))),
    (HELLO, WORLDLY, Some((1, 1))),
    (WORLDLY, HELLO, Some((1, 1))),
    ("h1.1<0.0 e2.1<1.1", "h1.1<0.0 a2.1<1.1", Some((2, 1))),
    ("h1.1<0.0 e2.1<1.1", "h1.1<0.0 e2.1<0.0", Some((2, 1))),
    ("a1.1<0.0 b600.1<1.1", "a1.1<0.0 c600.1<1.1", Some((600, 1))),
    ("a1.1<0.0 b1.2<0.0 -1.2", "b1.2<0.0 -9.9", None),
    ("a1.1<0.0 b2.1<1.1", "a1.1<0.0 b2.1<1.1 c3.1<2.1", None),
    (HELLO, HELLO, None),
];

#[test]
fn what_is_missing_is_taken_as_all_is(rt: HostRuntime) -> Result<(), std::test::Fail> {
    let alloc = rt.alloc();
    for (own, other, conflict) in CONFLICTS {
        let store = store_of::<TreeStore>(alloc, 99, own)?;
        let mut briefly = store_of::<TreeStore>(alloc, 99, other)?;
        let mut wholly = store_of::<TreeStore>(alloc, 99, other)?;
        let lacked = missing(alloc, &store, &summary_over(alloc, &briefly)?)?;
        let refusal = take_in_turn(&mut briefly, &lacked);
        let expected = match conflict {
            Some((counter, replica)) => Some(Refusal::Conflict(id(*counter, *replica)?)),
            None => None,
        };
        assert!(rt; refusal == expected, "{own} to {other}");
        assert!(rt;
            take_in_turn(&mut wholly, &store.ops()?) == expected,
            "all of {own} to {other}"
        );
        assert!(rt; briefly.ops()? == wholly.ops()?, "what {other} holds then");
    }
    Ok(())
}

/// Published with FNV-1a, for "fo"; and the digest of two insertions, whose numbers are 1, 0, 0, 97
/// and 2, 1, 1, 98, by another program.
const CLAIM: Claim = Claim {
    block: Block {
        replica: 1,
        number: 0,
    },
    digests: Digests {
        inserted: Some(0x0f757931e6f10ac9),
        deleted: Some(0x08985907b541d342),
    },
};

#[test]
fn digests_are_those_of_fnv_1a(rt: HostRuntime) -> Result<(), std::test::Fail> {
    let alloc = rt.alloc();
    let store = store_of::<TreeStore>(alloc, 99, "a1.1<0.0 b2.1<1.1 -111.1 -102.1")?;
    let claims = claims_over(alloc, &store)?;
    assert!(rt; claims.as_slice() == [CLAIM].as_slice(), "a claim");
    Ok(())
}

/// Texts that claim nothing.
const OTHERS: &[&str] = &[
    "{}",
    "{\"ins\":[1,2]}",
    "{\"block\":[65536,3],\"ins\":[1,2]}",
    "{\"block\":[2],\"ins\":[1,2]}",
    "{\"block\":[2,3,4],\"ins\":[1,2]}",
    "{\"block\":[2,3],\"ins\":[4294967296,0]}",
    "{\"block\":[2,3],\"del\":[0,4294967296]}",
    "{\"block\":[2,3],\"ins\":7}",
    "{\"block\":[2,3],\"ins\":[1,2],\"more\":0}",
];

#[test]
fn other_texts_are_no_claims(rt: HostRuntime) -> Result<(), std::test::Fail> {
    for text in OTHERS {
        assert!(rt; read_claim(rt.alloc(), text)?.is_none(), "{text}");
    }
    Ok(())
}
