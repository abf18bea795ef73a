//! What is written of small logs: who wrote their text, and what is counted in them.
use mgr_show::{write_authors, write_numbers};
use rga_exchange::Counted;
use std::alloc::{AllocError, Global};
use test_ports::MemorySources;

/// Replica 1 wrote "ab" and a newline, replica 2 wrote "c" after the "a" and "d" at the end, and
/// replica 3 deleted the "b". An insertion waits, and half a line stands at the end.
const LOG: &str = r#"{"id":[1,1],"op":"run","parent":[0,0],"text":"ab\n"}
{"char":"c","id":[4,2],"op":"ins","parent":[1,1]}
{"char":"d","id":[5,2],"op":"ins","parent":[3,1]}
{"id":[2,1],"op":"del"}
{"char":"w","id":[9,3],"op":"ins","parent":[8,7]}
{"char":"#;

/// A note of that log with this text.
fn note(alloc: Global, text: &str) -> Result<MemorySources, AllocError> {
    let mut sources = MemorySources::new(alloc);
    sources.push(alloc, "n.ops", LOG.as_bytes())?;
    sources.push(alloc, "n", text.as_bytes())?;
    Ok(sources)
}

/// What is written of the authors of the note.
fn authors(alloc: Global, by_lines: bool) -> Result<Vec<u8>, AllocError> {
    let mut sources = note(alloc, "")?;
    let mut writer = Counted::new(Vec::new(alloc));
    let _answer = write_authors(alloc, &mut sources, "n", by_lines, &mut writer);
    Ok(writer.into_inner())
}

/// What is written of the numbers of the note.
fn numbers(alloc: Global, text: &str, json: bool) -> Result<Vec<u8>, AllocError> {
    let mut sources = note(alloc, text)?;
    let mut writer = Counted::new(Vec::new(alloc));
    let _answer = write_numbers(alloc, &mut sources, "n", json, &mut writer);
    Ok(writer.into_inner())
}

/// Whether this text was written.
fn is_written(written: Result<Vec<u8>, AllocError>, text: &str) -> bool {
    match written {
        Ok(written) => written.as_slice() == text.as_bytes(),
        Err(_) => false,
    }
}

#[test]
fn pieces_are_told(rt: HostRuntime) {
    let told = r#"{"replica":1,"text":"a"}
{"replica":2,"text":"c"}
{"replica":1,"text":"\n"}
{"replica":2,"text":"d"}
"#;
    assert!(rt; is_written(authors(rt.alloc(), false), told), "pieces");
}

#[test]
fn lines_are_told(rt: HostRuntime) {
    let told = "1,2\tac\n2\td\n";
    assert!(rt; is_written(authors(rt.alloc(), true), told), "lines");
}

#[test]
fn numbers_are_told(rt: HostRuntime) {
    let told = "n.ops: 7 operations: 6 insertions, 1 deletions
4 visible, 1 waiting, 235 bytes, ends torn
text: same
replica 1: 3 characters, greatest counter 3
replica 2: 2 characters, greatest counter 5
replica 3: 1 characters, greatest counter 9
";
    assert!(rt;
        is_written(numbers(rt.alloc(), "ac\nd", false), told),
        "same text"
    );
    let json = "{\"operations\":7,\"insertions\":6,\"deletions\":1,\"visible\":4,\"waiting\":1,\
        \"bytes\":235,\"end\":\"torn\",\"text\":\"other\",\"replicas\":[\
        {\"replica\":1,\"characters\":3,\"counter\":3},\
        {\"replica\":2,\"characters\":2,\"counter\":5},\
        {\"replica\":3,\"characters\":1,\"counter\":9}]}\n";
    assert!(rt;
        is_written(numbers(rt.alloc(), "ac", true), json),
        "other text"
    );
}
