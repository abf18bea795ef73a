//! Saves over a port whose calls are refused in turn.
use mg_buffer::{BufferFault, Memo, VisitedBuffer};
use mg_files::{CallKind, Found, load, save};
use mg_plain::Command;
use rga_store::TextStore;
use rga_tree::TreeStore;
use std::alloc::Global;
use test_ports::MemoryPort;

fn empty<S: TextStore>(alloc: Global) -> Option<VisitedBuffer<S>> {
    let found = Found {
        log: None,
        text: None,
    };
    let (opened, _) = load(alloc, "notes", 1, 100, found).ok()?;
    Some(opened)
}

fn type_letter<S: TextStore>(
    alloc: Global,
    opened: &mut VisitedBuffer<S>,
) -> Result<(), BufferFault> {
    let mut memo = Memo::new(alloc);
    opened.buffer.run(&Command::Insert('a'), 1, &mut memo, 70)
}

/// Saves once for each letter, where the call that it stands for is refused: the append, the whole
/// log, the text, or none.
fn save_each<S: TextStore>(
    alloc: Global,
    opened: &mut VisitedBuffer<S>,
    port: &mut MemoryPort,
    letters: &str,
) {
    for letter in letters.chars() {
        port.refused = refused_at(letter);
        let _answer = save(alloc, opened, port);
    }
}

fn refused_at(letter: char) -> Option<CallKind> {
    match letter {
        'a' => Some(CallKind::Append),
        'w' => Some(CallKind::Replace),
        't' => Some(CallKind::PutText),
        _ => None,
    }
}

/// Whether these are the calls of the saves, in words, and whether something is still unsaved then.
fn saves<S: TextStore>(
    alloc: Global,
    opened: &mut VisitedBuffer<S>,
    letters: &str,
    calls: &str,
    unsaved: bool,
) -> bool {
    let mut port = MemoryPort::new(alloc);
    save_each(alloc, opened, &mut port, letters);
    let mut line = String::new(alloc);
    port.push_calls(&mut line).is_ok() && line.as_str() == calls && opened.is_changed() == unsaved
}

/// The same of a note in which `a` was typed.
fn tells<S: TextStore>(alloc: Global, letters: &str, calls: &str, unsaved: bool) -> bool {
    match empty::<S>(alloc) {
        Some(mut opened) => {
            type_letter(alloc, &mut opened).is_ok()
                && saves(alloc, &mut opened, letters, calls, unsaved)
        }
        None => false,
    }
}

#[test]
fn what_a_refused_save_left_is_saved_by_the_next(rt: HostRuntime) {
    const ROWS: &[(&str, &str, bool)] = &[
        ("-", " append 50 text 1", false),
        ("--", " append 50 text 1", false),
        ("a", " append 50!", true),
        ("a-", " append 50! replace 50 text 1", false),
        ("aw", " append 50! replace 50!", true),
        ("aw-", " append 50! replace 50! replace 50 text 1", false),
        (
            "awt-",
            " append 50! replace 50! replace 50 text 1! text 1",
            false,
        ),
        ("t", " append 50 text 1!", true),
        ("tt-", " append 50 text 1! text 1! text 1", false),
    ];
    for (letters, calls, unsaved) in ROWS {
        let told = tells::<TreeStore>(rt.alloc(), letters, calls, *unsaved);
        assert!(rt; told, "{letters}");
    }
}
