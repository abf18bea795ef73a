//! Stores and logs that are compacted, to devices that fail, and logs that are written anew by a
//! disk of which a step fails.
use crate::sending::{device, is_filled};
use mgr_mend::compact_note;
use mgr_show::{ShowFault, compact_log};
use rga_exchange::{Counted, SendFault, compact};
use rga_ops::Refusal;
use rga_store::TextStore;
use rga_tree::TreeStore;
use std::alloc::Global;
use test_fixtures::{chain, id, store_of};
use test_ports::MemoryLogs;

/// Two runs and a deletion.
const THREE: &str = r#"{"id":[1,1],"op":"run","parent":[0,0],"text":"abc"}
{"id":[1,2],"op":"run","parent":[0,0],"text":"xy"}
{"id":[2,1],"op":"del"}
"#;

/// An insertion behind which the counter has a gap, and another replica's.
const ALONE: &str = r#"{"char":"a","id":[1,1],"op":"ins","parent":[0,0]}
{"char":"b","id":[3,1],"op":"ins","parent":[1,1]}
{"char":"c","id":[4,2],"op":"ins","parent":[3,1]}
"#;

/// The lines to which a store is compacted, if there are so many.
fn lines_of<S: TextStore>(alloc: Global, store: &S, lines: u64) -> Option<Vec<u8>> {
    let mut writer = Counted::new(Vec::new(alloc));
    match compact(alloc, store, false, &mut writer) {
        Ok(written) if written == lines => Some(writer.into_inner()),
        _ => None,
    }
}

/// Operations, how many lines a store of them is compacted to, and their text.
type Row = (&'static str, u64, &'static str);

/// Whether a store is compacted so.
fn compacts<S: TextStore>(alloc: Global, row: &Row) -> bool {
    match store_of::<S>(alloc, 10000, row.0) {
        Ok(store) => compacts_to(alloc, &store, row.1, row.2),
        Err(_) => false,
    }
}

fn compacts_to<S: TextStore>(alloc: Global, store: &S, lines: u64, text: &str) -> bool {
    match lines_of(alloc, store, lines) {
        Some(bytes) => bytes.as_slice() == text.as_bytes(),
        None => false,
    }
}

/// The operations of the two runs and the deletion.
const WORDS: &str = "a1.1<0.0 b2.1<1.1 c3.1<2.1 x1.2<0.0 y2.2<1.2 -2.1";

#[test]
fn a_store_is_compacted_to_runs_and_deletions(rt: HostRuntime) {
    const ROWS: &[Row] = &[
        ("", 0, ""),
        (WORDS, 3, THREE),
        (
            "y2.2<1.2 -2.1 c3.1<2.1 x1.2<0.0 b2.1<1.1 a1.1<0.0",
            3,
            THREE,
        ),
        ("a1.1<0.0 b3.1<1.1 c4.2<3.1", 3, ALONE),
    ];
    for row in ROWS {
        assert!(rt; compacts::<TreeStore>(rt.alloc(), row), "{}", row.0);
    }
}

/// Whether a store of so many insertions, each behind the last, is compacted to so many lines and
/// bytes.
fn has_sizes<S: TextStore>(alloc: Global, count: u64, lines: u64, bytes: usize) -> bool {
    match chained::<S>(alloc, count) {
        Ok(store) => has_length(alloc, &store, lines, bytes),
        Err(_) => false,
    }
}

fn chained<S: TextStore>(alloc: Global, count: u64) -> Result<S, Refusal> {
    let mut store = S::new(alloc, 10000)?;
    store.apply_all(&chain(alloc, (1, 7), (0, 0), count, 'z')?)?;
    Ok(store)
}

fn has_length<S: TextStore>(alloc: Global, store: &S, lines: u64, length: usize) -> bool {
    match lines_of(alloc, store, lines) {
        Some(bytes) => bytes.len() == length,
        None => false,
    }
}

#[test]
fn a_run_has_4096_characters_at_most(rt: HostRuntime) {
    const ROWS: &[(u64, u64, usize)] = &[(1, 1, 50), (4096, 1, 4145), (4097, 2, 4201)];
    for (count, lines, bytes) in ROWS {
        let compacted = has_sizes::<TreeStore>(rt.alloc(), *count, *lines, *bytes);
        assert!(rt; compacted, "{count}");
    }
}

/// How many bytes a device has room for, whether it flushes, and what is answered.
type Device = (usize, bool, Result<u64, SendFault>);

/// Whether this is answered where the store is compacted to such a device, which takes few bytes in
/// a write.
fn fills<S: TextStore>(alloc: Global, row: &Device) -> bool {
    match store_of::<S>(alloc, 10000, WORDS) {
        Ok(store) => fills_with(alloc, &store, row),
        Err(_) => false,
    }
}

fn fills_with<S: TextStore>(alloc: Global, store: &S, row: &Device) -> bool {
    let mut writer = Counted::new(device(alloc, row.0, 7, row.1));
    let answer = compact(alloc, store, false, &mut writer);
    is_filled(writer, row.0, answer, row.2, THREE)
}

#[test]
fn devices_that_fail_have_a_beginning_of_the_lines(rt: HostRuntime) {
    const ALL: usize = THREE.len();
    const ROWS: &[Device] = &[
        (ALL, true, Ok(3)),
        (ALL, false, Err(SendFault::Write)),
        (ALL - 1, true, Err(SendFault::Write)),
        (0, true, Err(SendFault::Write)),
    ];
    for row in ROWS {
        assert!(rt; fills::<TreeStore>(rt.alloc(), row), "{}", row.0);
    }
}

/// Lines of which two stand twice, and the last has no newline.
const LOG: &str = r#"{"id":[2,1],"op":"del"}
{"id":[1,1],"op":"run","parent":[0,0],"text":"ab"}
{"id":[2,1],"op":"del"}
{"char":"y","id":[2,2],"op":"ins","parent":[1,2]}
{"char":"c","id":[3,1],"op":"ins","parent":[2,1]}
{"char":"a","id":[1,1],"op":"ins","parent":[0,0]}
{"char":"x","id":[1,2],"op":"ins","parent":[0,0]}"#;

/// A log whose last line is refused.
const REFUSED: &str = r#"{"char":"a","id":[1,1],"op":"ins","parent":[0,0]}
{"id":[1,1],"op":"run","parent":[0,0],"text":"bc"}
"#;

/// What is answered to it.
fn conflict() -> Result<(), ShowFault> {
    match id(1, 1) {
        Ok(id) => Err(ShowFault::Refused(2, Refusal::Conflict(id))),
        Err(_) => Ok(()),
    }
}

/// Whether this is answered to a log, and this written.
fn log_compacts(alloc: Global, log: &str, answer: Result<(), ShowFault>, text: &str) -> bool {
    let mut reader = Counted::new(log.as_bytes());
    let mut writer = Counted::new(Vec::new(alloc));
    let answered = compact_log(alloc, false, &mut reader, &mut writer);
    answered == answer && writer.into_inner().as_slice() == text.as_bytes()
}

#[test]
fn a_log_is_compacted_where_it_is_accepted(rt: HostRuntime) {
    let alloc = rt.alloc();
    for (log, text) in [("", ""), (LOG, THREE), (THREE, THREE), (ALONE, ALONE)] {
        assert!(rt; log_compacts(alloc, log, Ok(()), text), "{log}");
    }
    assert!(rt; log_compacts(alloc, REFUSED, conflict(), ""), "refused");
    let torn = Err(ShowFault::Torn(1));
    assert!(rt; log_compacts(alloc, &LOG[..20], torn, ""), "torn");
}

/// Whether these steps were made, in words.
pub(crate) fn has_rewritten(alloc: Global, logs: &MemoryLogs, steps: &str) -> bool {
    let mut line = String::new(alloc);
    logs.push_steps(&mut line).is_ok() && line.as_str() == steps
}

/// Whether this is answered where a log is written anew by a disk that makes so many steps, which
/// are these, in words; and the log is this then.
fn rewrites(
    alloc: Global,
    log: &str,
    left: usize,
    answer: Result<(), ShowFault>,
    steps: &str,
    text: &str,
) -> bool {
    match Vec::from_slice(alloc, log.as_bytes()) {
        Ok(log) => {
            let mut logs = MemoryLogs::new(alloc, log, left);
            let failed = answer == Err(ShowFault::Write);
            compact_note(alloc, &mut logs, "", false) == answer
                && logs.failures == u64::from(failed)
                && has_rewritten(alloc, &logs, steps)
                && logs.log.as_slice() == text.as_bytes()
        }
        Err(_) => false,
    }
}

/// How many steps are made before one fails, these steps, and the log then.
const STEPS: &[(usize, &str, &str)] = &[
    (0, " leave", LOG),
    (1, " empty leave", LOG),
    (2, " empty write leave", LOG),
    (3, " empty write sync leave", LOG),
    (4, " empty write sync keep leave", LOG),
    (5, " empty write sync keep name", THREE),
];

const ALL_STEPS: &str = " empty write sync keep name folder";

#[test]
fn a_log_that_is_written_anew_is_the_old_one_or_the_new_one(rt: HostRuntime) {
    let alloc = rt.alloc();
    for (left, steps, text) in STEPS {
        let answer = Err(ShowFault::Write);
        assert!(rt; rewrites(alloc, LOG, *left, answer, steps, text), "{left}");
    }
    assert!(rt; rewrites(alloc, LOG, 6, Ok(()), ALL_STEPS, THREE), "all");
    assert!(rt;
        rewrites(alloc, REFUSED, 6, conflict(), " leave", REFUSED),
        "refused"
    );
}
