//! Exchanges that a device cuts off, and received again from the start.
use rga_exchange::{Counted, Fuse, ReceiveFault, receive};
use rga_store::TextStore;
use rga_tree::TreeStore;
use std::alloc::Global;
use std::io::{Read, Result as IoResult};
use test_fixtures::store_shows;

/// An exchange of three insertions: three lines of 50 bytes, and the end line of 23.
const ABC: &str = r#"{"char":"a","id":[1,1],"op":"ins","parent":[0,0]}
{"char":"b","id":[2,1],"op":"ins","parent":[1,1]}
{"char":"c","id":[3,1],"op":"ins","parent":[2,1]}
{"count":3,"op":"end"}
"#;

/// The same behind the head, a line of 26.
const HEAD_ABC: &str = r#"{"op":"head","version":2}
{"char":"a","id":[1,1],"op":"ins","parent":[0,0]}
{"char":"b","id":[2,1],"op":"ins","parent":[1,1]}
{"char":"c","id":[3,1],"op":"ins","parent":[2,1]}
{"count":3,"op":"end"}
"#;

/// A reader of bytes that gives at most 40 in a read.
#[derive(Drop)]
struct Pieces {
    bytes: &'static [u8],
}

impl Read for Pieces {
    fn read(&mut self, buf: &mut [u8]) -> IoResult<usize> {
        let n = buf.len().min(40);
        self.bytes.read(&mut buf[..n])
    }
}

/// An exchange, how many reads there are, and the text that they lead to.
type Row = (&'static str, u64, &'static str);

/// What is answered to the exchange by a reader that fails behind so many reads.
fn answered<S: TextStore>(
    alloc: Global,
    store: &mut S,
    bytes: &'static [u8],
    reads: u64,
) -> Result<u64, ReceiveFault> {
    let mut reader = Counted::new(Fuse::new(Pieces { bytes }, reads));
    receive(alloc, store, &mut reader)
}

/// Whether so many reads lead to this text and, if not all is read, to a fault of the device; and
/// then the same bytes from the start to the whole text.
fn goes_on<S: TextStore>(alloc: Global, row: &Row) -> bool {
    match S::new(alloc, 10) {
        Ok(mut store) => {
            leads_to(alloc, &mut store, row, Err(ReceiveFault::Read))
                && leads_to(alloc, &mut store, &(row.0, 5, "abc"), Ok(3))
        }
        Err(_) => false,
    }
}

/// Whether this is answered behind so many reads, and the text is this then.
fn leads_to<S: TextStore>(
    alloc: Global,
    store: &mut S,
    row: &Row,
    answer: Result<u64, ReceiveFault>,
) -> bool {
    answered(alloc, store, row.0.as_bytes(), row.1) == answer && store_shows(alloc, store, row.2)
}

#[test]
fn what_is_received_again_changes_nothing(rt: HostRuntime) {
    const ROWS: &[Row] = &[
        (ABC, 0, ""),
        (ABC, 1, ""),
        (ABC, 2, "a"),
        (ABC, 3, "ab"),
        (ABC, 4, "abc"),
        (HEAD_ABC, 0, ""),
        (HEAD_ABC, 1, ""),
        (HEAD_ABC, 2, "a"),
        (HEAD_ABC, 3, "a"),
        (HEAD_ABC, 4, "ab"),
    ];
    for row in ROWS {
        assert!(rt; goes_on::<TreeStore>(rt.alloc(), row), "{}", row.1);
    }
}
