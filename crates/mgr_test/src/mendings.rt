//! Notes that are mended over a disk of which a step fails.
use crate::compactions::has_rewritten;
use mgr_mend::{LeftOut, mend_note};
use mgr_show::ShowFault;
use std::alloc::{AllocError, Global};
use test_ports::MemoryLogs;

/// A line that is no operation, two insertions of one identifier, and a line that was cut off.
const DAMAGED: &str = r#"{"char":"a","id":[1,1],"op":"ins","parent":[0,0]}
nonsense
{"char":"c","id":[2,1],"op":"ins","parent":[1,1]}
{"char":"b","id":[2,1],"op":"ins","parent":[1,1]}
{"id":[1,1],"op":"de"#;

/// What is kept of it.
const MENDED: &str = r#"{"char":"a","id":[1,1],"op":"ins","parent":[0,0]}
{"char":"b","id":[2,1],"op":"ins","parent":[1,1]}
"#;

/// What is refused of it, behind what was before.
const REFUSED: &str = r#"before
nonsense
{"char":"c","id":[2,1],"op":"ins","parent":[1,1]}
{"id":[1,1],"op":"de"#;

const BEFORE: &str = "before\n";

const LEFT_OUT: LeftOut = LeftOut {
    faulty: 1,
    beaten: 1,
    torn: true,
    excess: 0,
};

const NOTHING: LeftOut = LeftOut {
    faulty: 0,
    beaten: 0,
    torn: false,
    excess: 0,
};

/// The name of the note, its log, how many steps are made before one fails, and how many bytes of
/// what is refused there is room for.
type Given = (&'static str, &'static str, usize, usize);

/// What is answered, how many calls failed, the steps, and what stands there then.
type Found = (&'static str, u64, &'static str, &'static str, &'static str);

/// Logs of which something was refused before.
fn logs_of(alloc: Global, given: &Given) -> Result<MemoryLogs, AllocError> {
    let log = Vec::from_slice(alloc, given.1.as_bytes())?;
    let mut logs = MemoryLogs::new(alloc, log, given.2);
    logs.refused.extend_from_slice(BEFORE.as_bytes())?;
    logs.room = given.3;
    Ok(logs)
}

fn word_of(answer: Result<LeftOut, ShowFault>) -> &'static str {
    match answer {
        Ok(left_out) if left_out == LEFT_OUT => "left out",
        Ok(left_out) if left_out == NOTHING => "nothing",
        Err(ShowFault::Read) => "read",
        Err(ShowFault::Write) => "write",
        _ => "another answer",
    }
}

/// Whether a note is mended so.
fn mends(alloc: Global, given: &Given, found: &Found) -> bool {
    match logs_of(alloc, given) {
        Ok(mut logs) => {
            word_of(mend_note(alloc, &mut logs, given.0)) == found.0
                && logs.failures == found.1
                && has_rewritten(alloc, &logs, found.2)
                && logs.log.as_slice() == found.3.as_bytes()
                && logs.refused.as_slice() == found.4.as_bytes()
        }
        Err(_) => false,
    }
}

/// As much room as is needed.
const ROOM: usize = 1000;

const ROWS: &[(Given, Found)] = &[
    (("", MENDED, 6, ROOM), ("nothing", 0, "", MENDED, BEFORE)),
    (("x", DAMAGED, 6, ROOM), ("read", 1, "", DAMAGED, BEFORE)),
    (
        ("", DAMAGED, 6, 3),
        ("write", 1, "", DAMAGED, "before\nnon"),
    ),
    (
        ("", DAMAGED, 0, ROOM),
        ("write", 1, " leave", DAMAGED, REFUSED),
    ),
    (
        ("", DAMAGED, 4, ROOM),
        ("write", 1, " empty write sync keep leave", DAMAGED, REFUSED),
    ),
    (
        ("", DAMAGED, 5, ROOM),
        ("write", 1, " empty write sync keep name", MENDED, REFUSED),
    ),
    (
        ("", DAMAGED, 6, ROOM),
        (
            "left out",
            0,
            " empty write sync keep name folder",
            MENDED,
            REFUSED,
        ),
    ),
];

#[test]
fn a_note_that_is_mended_has_the_old_log_or_the_mended_one(rt: HostRuntime) {
    for (index, (given, found)) in ROWS.iter().enumerate() {
        assert!(rt; mends(rt.alloc(), given, found), "{index}");
    }
}
