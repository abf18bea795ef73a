//! Paths of a folder in memory that go, are given to other files, and are opened.
use mgr_port::{
    Keeping, Named, Old, Staged, give_free_name, keep, make_way, open_locked, put_whole,
    remove_open, spare_for, take_beside,
};
use std::alloc::{AllocError, Global};
use std::io;
use std::io::ErrorKind;
use test_ports::MemoryFiles;

/// A folder with these files, one a name, whose bytes are the name's own; a name that begins with
/// `|` is no file.
fn folder_of(alloc: Global, names: &[&str]) -> Result<MemoryFiles, AllocError> {
    let mut folder = MemoryFiles::new(alloc);
    for name in names {
        match name.strip_prefix('|') {
            Some(name) => folder.put_other(name)?,
            None => folder.put(name, name.as_bytes())?,
        }
    }
    Ok(folder)
}

/// Whether a name has the bytes that are a name's own, or none if that is empty.
fn has(folder: &MemoryFiles, name: &str, bytes: &str) -> bool {
    match folder.bytes(name) {
        Some(found) => found == bytes.as_bytes(),
        None => bytes.is_empty(),
    }
}

/// What an answer was: `.`, or one letter of its error.
fn letter<T: Drop>(answer: &io::Result<T>) -> char {
    match answer {
        Ok(_) => '.',
        Err(error) => match error.kind() {
            ErrorKind::NotFound => 'n',
            ErrorKind::AlreadyExists => 'a',
            ErrorKind::InvalidInput => 'i',
            ErrorKind::WouldBlock => 'w',
            _ => '?',
        },
    }
}

/// The names that stand, and the one under which `note` is kept; none if it can't be.
type Kept = (&'static [&'static str], &'static str);

fn keeps(alloc: Global, row: &Kept, keeping: Keeping) -> Result<bool, AllocError> {
    let mut folder = folder_of(alloc, row.0)?;
    let answer = keep(&mut folder, "note", keeping);
    if letter(&answer) != '.' {
        return Ok(row.1.is_empty());
    }
    Ok(has(&folder, row.1, "note") && has(&folder, "note", "note"))
}

#[test]
fn a_file_is_kept_under_a_free_name(rt: HostRuntime) {
    const ROWS: &[Kept] = &[
        (&["note"], "note~"),
        (&["note", "note~"], "note.~1~"),
        (&["note", "|note~", "note.~1~"], "note.~2~"),
        (&[], ""),
    ];
    for row in ROWS {
        assert!(rt;
            keeps(rt.alloc(), row, Keeping::ByName) == Ok(true),
            "{}",
            row.1
        );
        assert!(rt;
            keeps(rt.alloc(), row, Keeping::ByCopy) == Ok(true),
            "{}",
            row.1
        );
    }
}

/// What stands, the bytes that are to take the place of `note`, and what is answered: `.` if nothing
/// is lost then, `-` if something is.
type Written = (&'static [&'static str], &'static str, char);

fn may_be_written(alloc: Global, row: &Written) -> Result<bool, AllocError> {
    let mut folder = folder_of(alloc, row.0)?;
    let answer = spare_for(&mut folder, "note", None, row.1.as_bytes());
    let is_lost = match &answer {
        Ok(spare) => spare.is_none(),
        Err(_) => false,
    };
    Ok(row.2 == if is_lost { '-' } else { letter(&answer) })
}

#[test]
fn other_bytes_are_not_written_over(rt: HostRuntime) {
    const ROWS: &[Written] = &[
        (&["note"], "note", '.'),
        (&["note"], "nota", '-'),
        (&["note"], "notes", '-'),
        (&["|note"], "note", 'i'),
        (&[], "note", '.'),
    ];
    for row in ROWS {
        assert!(rt;
            may_be_written(rt.alloc(), row) == Ok(true),
            "{} {}",
            row.1,
            row.2
        );
    }
}

/// What is done with `note`.
#[derive(Clone, Copy)]
enum Act {
    MakeWay,
    GiveFreeName,
    RemoveOpen,
    OpenLocked,
    TakeBeside,
    /// The first file becomes `note`, with `text` in it, where nothing was.
    PutFirst,
    /// The same, where something was.
    PutNext,
}

/// Does that, and says what was answered.
fn answer_to(folder: &mut MemoryFiles, act: Act) -> char {
    match act {
        Act::MakeWay => letter(&make_way(folder, "note")),
        Act::GiveFreeName => letter(&give_free_name(folder, "note", "name")),
        Act::RemoveOpen => letter(&remove_open(folder, "note", &0)),
        Act::OpenLocked => letter(&open_locked(folder, "note", true)),
        Act::TakeBeside => letter(&take_beside(folder, "note")),
        Act::PutFirst => letter(&put(folder, Old::Nothing)),
        Act::PutNext => letter(&put(folder, Old::Log)),
    }
}

fn put(folder: &mut MemoryFiles, old: Old<'_>) -> io::Result<Named> {
    let staged = Staged {
        path: "name",
        name: "note",
        later: None,
        old,
    };
    put_whole(folder, &0, None, staged, b"text")
}

/// What is done, what stands before, what is answered, and names with what they have then, if
/// anything.
type Row = (
    Act,
    &'static [&'static str],
    char,
    &'static [(&'static str, &'static str)],
);

fn does(alloc: Global, row: &Row) -> Result<bool, AllocError> {
    let mut folder = folder_of(alloc, row.1)?;
    if answer_to(&mut folder, row.0) != row.2 {
        return Ok(false);
    }
    for (name, bytes) in row.3 {
        if !has(&folder, name, bytes) {
            return Ok(false);
        }
    }
    Ok(true)
}

#[test]
fn nothing_is_lost_by_a_path_that_goes(rt: HostRuntime) {
    const ROWS: &[Row] = &[
        (
            Act::MakeWay,
            &["note"],
            '.',
            &[("note", ""), ("note~", "note")],
        ),
        (
            Act::MakeWay,
            &["|note"],
            '.',
            &[("note", ""), ("note~", "")],
        ),
        (Act::MakeWay, &[], '.', &[("note", "")]),
        (
            Act::GiveFreeName,
            &["note"],
            '.',
            &[("note", ""), ("name", "note")],
        ),
        (
            Act::GiveFreeName,
            &["note", "name"],
            'a',
            &[("note", "note"), ("name", "name")],
        ),
        (Act::GiveFreeName, &[], 'n', &[("name", "")]),
        (Act::RemoveOpen, &["note"], '.', &[("note", "")]),
        (Act::RemoveOpen, &["name", "note"], '.', &[("note", "note")]),
        (Act::OpenLocked, &["note"], '.', &[("note", "note")]),
        (Act::OpenLocked, &["|note"], 'i', &[]),
        (Act::OpenLocked, &[], '.', &[]),
        (Act::TakeBeside, &["note"], '.', &[("note~", "note")]),
        (Act::TakeBeside, &["|note"], '.', &[("note~", "")]),
        (
            Act::PutFirst,
            &["name"],
            '.',
            &[("note", "text"), ("name", "")],
        ),
        (
            Act::PutFirst,
            &["name", "note"],
            'a',
            &[("note", "note"), ("name", "text")],
        ),
        (
            Act::PutNext,
            &["name", "note"],
            '.',
            &[("note", "text"), ("note~", "note"), ("name", "")],
        ),
    ];
    for (index, row) in ROWS.iter().enumerate() {
        assert!(rt; does(rt.alloc(), row) == Ok(true), "{index}");
    }
}

#[test]
fn what_others_have_locked_is_not_opened(rt: HostRuntime) {
    let answers = locked_answers(rt.alloc());
    assert!(rt; answers == Ok(('w', 'w')));
}

fn locked_answers(alloc: Global) -> Result<(char, char), AllocError> {
    let mut folder = folder_of(alloc, &["note"])?;
    folder.lock_by_others("note");
    let opened = answer_to(&mut folder, Act::OpenLocked);
    Ok((opened, answer_to(&mut folder, Act::TakeBeside)))
}
