//! Logs that are read by their names: joined, and shown.
use mgr_show::{JoinFault, ShowFault, join_logs, show_note};
use rga_exchange::Counted;
use rga_ops::{Id, Refusal};
use std::alloc::{AllocError, Global};
use test_ports::MemorySources;

/// A run, and its last character deleted.
const ABC: &str = r#"{"id":[1,1],"op":"run","parent":[0,0],"text":"abc"}
{"id":[3,1],"op":"del"}
"#;

/// An insertion behind that run, which waits without it; with no newline.
const D: &str = r#"{"char":"d","id":[4,2],"op":"ins","parent":[3,1]}"#;

/// Another insertion of the same identifier.
const OTHER: &str = r#"{"char":"x","id":[4,2],"op":"ins","parent":[0,0]}
"#;

/// A run of deletions.
const DELS: &str = r#"{"count":2,"id":[1,1],"op":"dels"}
"#;

/// An insertion, and half of one.
const TORN: &str = r#"{"char":"e","id":[5,3],"op":"ins","parent":[0,0]}
{"char":"f","#;

fn sources(alloc: Global) -> Result<MemorySources, AllocError> {
    let mut sources = MemorySources::new(alloc);
    sources.push(alloc, "abc.ops", ABC.as_bytes())?;
    sources.push(alloc, "d.ops", D.as_bytes())?;
    sources.push(alloc, "other.ops", OTHER.as_bytes())?;
    sources.push(alloc, "dels.ops", DELS.as_bytes())?;
    sources.push(alloc, "torn.ops", TORN.as_bytes())?;
    Ok(sources)
}

fn names(alloc: Global, words: &str) -> Result<Vec<String>, AllocError> {
    let mut names = Vec::new(alloc);
    for word in words.split_whitespace() {
        names.push(String::from_str(alloc, word)?)?;
    }
    Ok(names)
}

/// The answer to a join, what it wrote, and how many reads failed.
type Joined = (Result<(), JoinFault>, Vec<u8>, u64);

fn joined(alloc: Global, words: &str) -> Result<Joined, AllocError> {
    let mut sources = sources(alloc)?;
    let names = names(alloc, words)?;
    let mut writer = Counted::new(Vec::new(alloc));
    let answer = join_logs(alloc, &mut sources, &names, &mut writer);
    Ok((answer, writer.into_inner(), sources.failures))
}

/// Whether the logs of these names are joined to these lines.
fn joins(alloc: Global, words: &str, lines: &str) -> bool {
    match joined(alloc, words) {
        Ok((answer, written, failures)) => {
            answer == Ok(()) && written.as_slice() == lines.as_bytes() && failures == 0
        }
        Err(_) => false,
    }
}

/// Whether the log with this index is refused so, if those of these names are joined, and nothing
/// is written.
fn is_refused(alloc: Global, words: &str, index: usize, fault: ShowFault) -> bool {
    match joined(alloc, words) {
        Ok((answer, written, failures)) => {
            let failed = if fault == ShowFault::Read { 1 } else { 0 };
            answer == Err(JoinFault::Log(index, fault)) && written.is_empty() && failures == failed
        }
        Err(_) => false,
    }
}

#[test]
fn logs_are_joined(rt: HostRuntime) {
    const ABCD: &str = r#"{"id":[1,1],"op":"run","parent":[0,0],"text":"abc"}
{"char":"d","id":[4,2],"op":"ins","parent":[3,1]}
{"id":[3,1],"op":"del"}
"#;
    const WITH_DELS: &str = r#"{"id":[1,1],"op":"run","parent":[0,0],"text":"abc"}
{"count":3,"id":[1,1],"op":"dels"}
"#;
    const ROWS: &[(&str, &str)] = &[
        ("", ""),
        ("abc.ops d.ops", ABCD),
        ("d.ops abc.ops", ABCD),
        ("d.ops abc.ops d.ops abc.ops", ABCD),
        ("abc.ops dels.ops", WITH_DELS),
        ("dels.ops abc.ops", WITH_DELS),
    ];
    for (words, lines) in ROWS {
        assert!(rt; joins(rt.alloc(), words, lines), "{words}");
    }
}

/// The same of another insertion, which is the first line of that log.
fn conflicts(alloc: Global, words: &str, index: usize) -> bool {
    match Id::new(4, 2) {
        Ok(id) => is_refused(
            alloc,
            words,
            index,
            ShowFault::Refused(1, Refusal::Conflict(id)),
        ),
        Err(_) => false,
    }
}

#[test]
fn a_join_names_the_first_log_that_is_refused(rt: HostRuntime) {
    let alloc = rt.alloc();
    assert!(rt; conflicts(alloc, "abc.ops d.ops other.ops", 2));
    assert!(rt; conflicts(alloc, "other.ops d.ops torn.ops", 1));
    assert!(rt; is_refused(alloc, "abc.ops torn.ops none.ops", 1, ShowFault::Torn(2)));
    assert!(rt; is_refused(alloc, "none.ops torn.ops", 0, ShowFault::Read));
}

/// Whether the note of a name shows this text, by so many lines of its log.
fn shows(alloc: Global, name: &str, lines: Option<u64>, text: &str) -> Result<bool, AllocError> {
    let mut sources = sources(alloc)?;
    let mut writer = Counted::new(Vec::new(alloc));
    let answer = show_note(alloc, &mut sources, name, lines, &mut writer);
    Ok(answer == Ok(()) && writer.into_inner().as_slice() == text.as_bytes())
}

#[test]
fn a_note_is_shown_by_the_first_lines_of_its_log(rt: HostRuntime) {
    const ROWS: &[(&str, Option<u64>, &str)] = &[
        ("abc", None, "ab"),
        ("abc", Some(0), ""),
        ("abc", Some(1), "abc"),
        ("abc", Some(2), "ab"),
        ("abc", Some(9), "ab"),
        ("d", None, ""),
        ("other", Some(1), "x"),
        ("torn", None, "e"),
        ("torn", Some(1), "e"),
        ("torn", Some(2), "e"),
    ];
    for (name, lines, text) in ROWS {
        assert!(rt; shows(rt.alloc(), name, *lines, text) == Ok(true), "{name}");
    }
}
