//! Plans of commands that no key leads to, and characters that are kept.
use mg_plain::{Chars, Command, Direction, Kind, Notice, View, count_matches, find, plan};
use std::alloc::{AllocError, Global};

/// The characters of a text.
pub(crate) fn chars_of(alloc: Global, text: &str) -> Result<Vec<char>, AllocError> {
    text.chars().collect(alloc)
}

/// Whether the command's search fails where point is at the begin of the text.
fn is_refused(alloc: Global, text: &[char], command: &Command) -> bool {
    let view = View {
        text,
        point: 0,
        mark: None,
        kill: &[],
        goal: 0,
        last: Kind::Plain,
    };
    plan(alloc, command, 1, &view, 70).err() == Some(Notice::SearchFailed)
}

/// A search from behind a text of eleven characters, or a replacement by an `x`.
#[derive(Clone, Copy, Debug)]
enum Attempt {
    SearchForward,
    SearchBackward,
    ReplaceOne,
    ReplaceAll,
}

/// The command of an attempt.
fn command_of(alloc: Global, attempt: Attempt, pattern: &str) -> Result<Command, AllocError> {
    let pattern = copied(alloc, pattern)?;
    let put = copied(alloc, "x")?;
    match attempt {
        Attempt::SearchForward => Ok(Command::SearchForward { pattern, start: 12 }),
        Attempt::SearchBackward => Ok(Command::SearchBackward { pattern, start: 12 }),
        Attempt::ReplaceOne => Ok(Command::ReplaceOne { pattern, put }),
        Attempt::ReplaceAll => Ok(Command::ReplaceAll { pattern, put }),
    }
}

/// Whether there is the command, and its search fails so.
fn fails(alloc: Global, text: &str, attempt: Attempt, pattern: &str) -> bool {
    match command_of(alloc, attempt, pattern) {
        Ok(command) => fails_on(alloc, text, &command),
        Err(_) => false,
    }
}

fn fails_on(alloc: Global, text: &str, command: &Command) -> bool {
    match chars_of(alloc, text) {
        Ok(text) => is_refused(alloc, &text, command),
        Err(_) => false,
    }
}

#[test]
fn searches_behind_the_text_and_replacements_without_a_match_fail(rt: HostRuntime) {
    const ROWS: &[(&str, Attempt, &str)] = &[
        ("Foo bar foo", Attempt::SearchForward, ""),
        ("Foo bar foo", Attempt::SearchBackward, "foo"),
        ("a-a-a", Attempt::ReplaceOne, "a"),
        ("a-a-a", Attempt::ReplaceAll, "a"),
    ];
    for (text, attempt, pattern) in ROWS {
        assert!(rt; fails(rt.alloc(), text, *attempt, pattern), "{attempt:?}");
    }
}

/// Whether nothing is found of a pattern from behind a text on.
fn finds_nothing(text: &[char], pattern: &[char]) -> bool {
    let start = text.len().saturating_add(1);
    find(Direction::Forward, text, pattern, start) == None
        && find(Direction::Backward, text, pattern, start) == None
        && count_matches(text, pattern, start) == 0
}

#[test]
fn nothing_is_found_from_behind_the_text_on(rt: HostRuntime) {
    assert!(rt; finds_nothing(&['a', 'a', 'a', 'a'], &['a', 'a']), "two");
    assert!(rt; finds_nothing(&['a', 'a', 'a', 'a'], &[]), "none");
}

/// The characters of a text, copied in one piece.
fn copied(alloc: Global, text: &str) -> Result<Chars, AllocError> {
    Chars::from_slice(alloc, &chars_of(alloc, text)?)
}

/// The characters of a text, added one by one.
fn collected(alloc: Global, text: &str) -> Result<Chars, AllocError> {
    let mut chars = Chars::new(alloc);
    for c in text.chars() {
        chars.push(c)?;
    }
    Ok(chars)
}

/// Whether it is known of the characters of two texts, of which one is copied and one collected,
/// whether they are equal.
fn are_alike(alloc: Global, a: &str, b: &str, expected: bool) -> bool {
    match copied(alloc, a) {
        Ok(a) => is_collected(alloc, &a, b, expected),
        Err(_) => false,
    }
}

fn is_collected(alloc: Global, a: &Chars, b: &str, expected: bool) -> bool {
    match collected(alloc, b) {
        Ok(b) => (a.as_slice() == b.as_slice()) == expected,
        Err(_) => false,
    }
}

#[test]
fn characters_are_compared(rt: HostRuntime) {
    const ROWS: &[(&str, &str, bool)] = &[
        ("", "", true),
        ("foo", "foo", true),
        ("foo", "Foo", false),
        ("foo", "fo", false),
        ("", "f", false),
        ("é漢", "é漢", true),
    ];
    for (a, b, expected) in ROWS {
        assert!(rt; are_alike(rt.alloc(), a, b, *expected), "{a} {b}");
    }
}
