//! Lines that are lent, and what no line says.
use rga_lines::{Line, LineFault, MAX_LINE, Splitter, read_any, write_end, write_head, write_line};
use rga_ops::OutOfMemory;
use std::alloc::Global;
use test_fixtures::op_of;

/// Whether the next whole line is this one, also when it is asked for again. Goes on behind it.
fn lends(splitter: &mut Splitter, line: &[u8]) -> bool {
    let first = splitter.find_line();
    let Ok(Some(end)) = splitter.find_line() else {
        return false;
    };
    let is_lent = first == Ok(Some(end)) && splitter.line(end) == line;
    splitter.pass_line(end);
    is_lent
}

/// Whether no whole line is left until this is fed, and then one of so many bytes.
fn waits_for(splitter: &mut Splitter, piece: &[u8], end: usize) -> bool {
    let before = splitter.find_line();
    let fed = splitter.feed(piece).is_ok();
    before == Ok(None) && fed && splitter.find_line() == Ok(Some(end))
}

/// Whether two lines are lent and passed, and then the rest with its newline is left.
fn lends_each(mut splitter: Splitter) -> bool {
    splitter.feed(b"ab\ncde\nf").is_ok()
        && lends(&mut splitter, b"ab")
        && lends(&mut splitter, b"cde")
        && waits_for(&mut splitter, b"\n", 1)
        && splitter.finish().as_slice() == b"f\n".as_slice()
}

#[test]
fn a_line_is_lent_until_it_is_passed(rt: HostRuntime) {
    assert!(rt; lends_each(Splitter::new(rt.alloc())));
}

/// A splitter that was fed a line, and as many blanks as a line may have.
fn almost_too_long(alloc: Global) -> Result<Splitter, LineFault> {
    let blanks = vec![in alloc; b' '; MAX_LINE]?;
    let mut splitter = Splitter::new(alloc);
    splitter.feed(b"a\n")?;
    splitter.feed(&blanks)?;
    Ok(splitter)
}

/// Whether there is a line, and behind it a rest that is not too long.
fn has_one_line(splitter: &mut Splitter) -> bool {
    matches!(splitter.next_line(), Ok(Some(_))) && matches!(splitter.next_line(), Ok(None))
}

/// Whether the next line is too long, once this was fed.
fn is_too_long_with(splitter: &mut Splitter, piece: &[u8]) -> bool {
    splitter.feed(piece).is_ok() && matches!(splitter.next_line(), Err(LineFault::Long))
}

/// Whether one line stands before the one that is too long with one byte more, and none behind it.
fn ends_with_a_long_line(mut splitter: Splitter) -> bool {
    has_one_line(&mut splitter)
        && is_too_long_with(&mut splitter, b"b")
        && is_too_long_with(&mut splitter, b"\nc\n")
        && splitter.finish().is_empty()
}

#[test]
fn a_long_line_ends_the_lines(rt: HostRuntime) {
    let splitter = almost_too_long(rt.alloc()).expect(&rt, "a splitter");
    assert!(rt; ends_with_a_long_line(splitter));
}

/// Whether this line was written.
fn is_line(written: Result<String, OutOfMemory>, line: &str) -> bool {
    match written {
        Ok(written) => written.as_str() == line,
        Err(_) => false,
    }
}

/// Whether this is the line of the operation that the word says.
fn is_line_of(alloc: Global, line: &str, word: &str) -> bool {
    match op_of(word) {
        Ok(op) => is_line(write_line(alloc, &op), line),
        Err(_) => false,
    }
}

#[test]
fn operations_that_no_line_says_are_written(rt: HostRuntime) {
    const ROWS: &[(&str, &str)] = &[
        ("-0.0", r#"{"id":[0,0],"op":"del"}"#),
        (
            "a1.1<1.1",
            r#"{"char":"a","id":[1,1],"op":"ins","parent":[1,1]}"#,
        ),
    ];
    for (word, line) in ROWS {
        assert!(rt; is_line_of(rt.alloc(), line, word), "{line}");
    }
}

#[test]
fn ends_of_more_operations_than_a_note_has_are_written(rt: HostRuntime) {
    const ROWS: &[(u64, &str)] = &[
        (1000000, r#"{"count":1000000,"op":"end"}"#),
        (u64::MAX, r#"{"count":18446744073709551615,"op":"end"}"#),
    ];
    for (count, line) in ROWS {
        assert!(rt; is_line(write_end(rt.alloc(), *count), line), "{line}");
    }
}

/// Whether this is the line that begins an exchange, and is read as that.
fn is_head(alloc: Global, line: &str) -> bool {
    is_line(write_head(alloc), line) && matches!(read_any(alloc, line.as_bytes()), Ok(Line::Head))
}

#[test]
fn the_head_of_an_exchange_is_read_as_it_is_written(rt: HostRuntime) {
    assert!(rt; is_head(rt.alloc(), r#"{"op":"head","version":2}"#));
}
