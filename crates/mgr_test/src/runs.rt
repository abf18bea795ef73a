//! Runs of insertions, which a store that is nearly full takes whole or not at all.
use rga_exchange::{Counted, read_log};
use rga_store::{Taker, TextStore};
use rga_tree::TreeStore;
use std::alloc::Global;
use test_fixtures::{prints, store_of, store_shows};

const HELLO: &str = r#"{"id":[1,2],"op":"run","parent":[0,0],"text":"hello"}"#;

/// Whether this is answered to a log of the run `hello` alone, whose line ends without a newline.
fn answers<T: Taker>(alloc: Global, taker: &mut T, answer: &str) -> bool {
    let mut reader = Counted::new(HELLO.as_bytes());
    prints(alloc, &read_log(alloc, taker, &mut reader), answer)
}

/// A limit, the operations that a store of this limit took, what it answers, the text that it then
/// shows, and how many identifiers it knows.
type Row = (usize, &'static str, &'static str, &'static str, usize);

/// Whether such a store takes the run so.
fn takes<S: TextStore>(alloc: Global, row: &Row) -> bool {
    match store_of::<S>(alloc, row.0, row.1) {
        Ok(mut store) => {
            answers(alloc, &mut store, row.2)
                && store_shows(alloc, &store, row.3)
                && store.known() == row.4
        }
        Err(_) => false,
    }
}

/// What is answered where the third element of the run is another one.
const CONFLICT: &str = "Err(Refused(1, Conflict(Id { counter: 3, replica: 2 })))";

#[test]
fn a_run_is_taken_whole_or_not_at_all(rt: HostRuntime) {
    const ROWS: &[Row] = &[
        (5, "", "Ok(Bare)", "hello", 5),
        (5, "h1.2<0.0 e2.2<1.2", "Ok(Bare)", "hello", 5),
        (4, "h1.2<0.0 e2.2<1.2", "Err(Refused(1, Full))", "he", 2),
        (3, "z3.2<0.0", CONFLICT, "z", 1),
    ];
    for row in ROWS {
        assert!(rt; takes::<TreeStore>(rt.alloc(), row), "{}", row.2);
    }
}
