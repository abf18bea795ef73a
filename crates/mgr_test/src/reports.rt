//! What reports say, and what bytes lead to, in words.
use mg_events::{Event, LineFault, REPORT, Reader, Report, read_report};
use std::alloc::{AllocError, Global};

/// A report's line, and what it says.
const LINES: [(&str, &str); 30] = [
    (
        r#"{"char":"a","id":[1,2],"op":"ins","parent":[0,0]}"#,
        "1 by 2",
    ),
    (r#"{"id":[7,2], "op":"del"}"#, "7 by 2"),
    (
        r#"{"id":[1,2],"op":"run","parent":[0,0],"text":"hello"}"#,
        "run of 5",
    ),
    (r#"{"count":9,"id":[1,2],"op":"dels"}"#, "9 deletions"),
    (r#"{"op":"head","version":2}"#, "Kind"),
    (r#"{"count":2,"op":"end"}"#, "Kind"),
    (r#"{"id":[0,0],"op":"del"}"#, "Id"),
    (
        r#"{"op":"paste","text":"h\u00e9\n"}"#,
        "paste of 3, more false",
    ),
    (
        r#"{"more":true,"op":"paste","text":""}"#,
        "paste of 0, more true",
    ),
    (r#"{"more":1,"op":"paste","text":""}"#, "Kind"),
    (r#"{"op":"paste"}"#, "Member"),
    (r#"{"op":"paste","text":"","than":true}"#, "Member"),
    (r#"{"op":"paste","text":7}"#, "Kind"),
    (
        r#"{"base":7,"hi":3,"lo":0,"op":"splice","text":"ab"}"#,
        "splice of 7 at 0 to 3 by 2, more false",
    ),
    (
        r#"{"base":7,"hi":3,"lo":0,"more":true,"op":"splice","text":""}"#,
        "splice of 7 at 0 to 3 by 0, more true",
    ),
    (
        r#"{"base":7,"hi":3,"lo":-1,"op":"splice","text":""}"#,
        "Kind",
    ),
    (r#"{"base":7,"hi":3,"op":"splice","text":""}"#, "Member"),
    (
        r#"{"cols":80,"op":"size","rows":24}"#,
        "24 rows, 80 columns",
    ),
    (r#"{"cols":80.5,"op":"size","rows":24}"#, "Kind"),
    (
        r#"{"op":"places","places":[[7,1],[12,2],[0,0]]}"#,
        "places: 7.1 12.2 0.0",
    ),
    (r#"{"op":"places","places":[]}"#, "places:"),
    (r#"{"op":"places","places":[[7,0]]}"#, "Id"),
    (r#"{"op":"places","places":[[7],8]}"#, "Kind"),
    (r#"{"op":"rest"}"#, "rest"),
    (r#"{"op":"rest","all":true}"#, "Member"),
    (r#"{"op":"other"}"#, "Kind"),
    (r#"{"op":3}"#, "Kind"),
    (r#"{"text":""}"#, "Member"),
    ("[]", "Kind"),
    ("{", "Json"),
];

/// What a report's line says.
fn said(alloc: Global, line: &str) -> Result<String, AllocError> {
    match read_report(alloc, line.as_bytes()) {
        Ok(Report::One(op)) => {
            let id = op.id();
            format!(in alloc; "{} by {}", id.counter(), id.replica())
        }
        Ok(Report::Run(run)) => format!(in alloc; "run of {}", run.chars.len()),
        Ok(Report::Deletions(run)) => format!(in alloc; "{} deletions", run.count),
        Ok(Report::Paste { text, more }) => {
            format!(in alloc; "paste of {}, more {more}", text.as_slice().len())
        }
        Ok(
            Report::Splice {
                base,
                lo,
                hi,
                text,
                more,
            },
        ) => {
            let count = text.as_slice().len();
            format!(in alloc; "splice of {base} at {lo} to {hi} by {count}, more {more}")
        }
        Ok(Report::Size { rows, columns }) => {
            format!(in alloc; "{rows} rows, {columns} columns")
        }
        Ok(Report::Places(places)) => {
            let mut all = format!(in alloc; "places:")?;
            for id in &places.all {
                let place = format!(in alloc; " {}.{}", id.counter(), id.replica())?;
                all.push_str(place.as_str())?;
            }
            Ok(all)
        }
        Ok(Report::Rest) => format!(in alloc; "rest"),
        Err(fault) => format!(in alloc; "{}", fault.name()),
    }
}

#[test]
fn lines_of_reports_are_read(rt: HostRuntime) {
    for (line, wanted) in LINES {
        let Ok(found) = said(rt.alloc(), line) else {
            panic!(rt; "memory");
        };
        assert!(rt; found.as_str() == wanted, "{line}: {found}");
    }
}

/// Bytes, and what they lead to. Two points stand for a report that is cut off.
const STREAMS: [(&[u8], &str); 4] = [
    (b"ab", "a b"),
    (
        b"a\xff{}\nb\xff\n\xff{\"op\":\"rest\"}\nc",
        "a [{}] b [] [{\"op\":\"rest\"}] c",
    ),
    (b"a\xffbc", "a .."),
    (b"\xff\xff\nd", "[?] d"),
];

/// What a byte leads to.
fn told(reader: &Reader, event: Event, all: &mut Vec<u8>) -> Result<(), AllocError> {
    match event {
        Event::Key(key) => all.push(key)?,
        Event::Line => {
            all.push(b'[')?;
            for byte in reader.line() {
                all.push(if *byte == 255 { b'?' } else { *byte })?;
            }
            all.push(b']')?;
        }
        Event::Refused(fault) => all.extend_from_slice(fault.name().as_bytes())?,
        Event::Nothing => return Ok(()),
    }
    all.push(b' ')?;
    Ok(())
}

/// What bytes lead to.
fn events(alloc: Global, bytes: &[u8]) -> Result<Vec<u8>, AllocError> {
    let mut reader = Reader::new(alloc);
    let mut all = Vec::new(alloc);
    for byte in bytes {
        let event = reader.read(*byte);
        told(&reader, event, &mut all)?;
    }
    if reader.is_within() {
        all.extend_from_slice(b".. ")?;
    }
    let _blank = all.pop();
    Ok(all)
}

#[test]
fn keys_and_reports_are_told_apart(rt: HostRuntime) {
    for (bytes, wanted) in STREAMS {
        let Ok(found) = events(rt.alloc(), bytes) else {
            panic!(rt; "memory");
        };
        assert!(rt; found.as_slice() == wanted.as_bytes(), "{wanted}");
    }
}

/// A line of 65,536 bytes is whole, and one byte more is too long.
#[test]
fn the_longest_line(rt: HostRuntime) {
    for (count, wanted) in [
        (65536, Event::Line),
        (65537, Event::Refused(LineFault::Long)),
    ] {
        let mut reader = Reader::new(rt.alloc());
        let _begun = reader.read(REPORT);
        for _ in 0..count {
            let _held = reader.read(b'x');
        }
        assert!(rt; reader.read(b'\n') == wanted, "{count}");
    }
}
