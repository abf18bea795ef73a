//! A whole status.
use mg_events::{
    Asking, BufferStatus, PlaceStatus, PointStatus, PromptStatus, RefusedReport, Saved, Status,
    WindowStatus, status_line,
};
use mg_screen::Position;
use rga_ops::{Id, Splice};

/// Each member has something to tell.
const FULL: &str =
    r#"{"begun":true,"buffer":{"changed":true,"name":"a\"b\\c","unsaved":3,"waiting":4},"changes":[{"hi":3,"lo":0,"text":"é\n€\u0001"},{"hi":9,"lo":9,"text":""}],"cursor":[0,4],"keys":12,"live":{"changed":true,"name":"a\"b\\c","unsaved":3,"waiting":4},"loaded":true,"message":"Wrote é","mode":"search","more":true,"operations":2,"places":[[7,1,0,3],[9007199254740991,65535,1,0]],"point":[0,4,7,1],"prompt":{"answer":"ab\t","label":"I-search: "},"refused":[[3,"Stale"],[4,"Far"]],"reports":5,"rows":24,"saved":"memory","windows":[[22,"note"],[1,"\u001f"]]}
"#;

#[test]
fn a_status_is_one_line_of_json(rt: HostRuntime) {
    let alloc = rt.alloc();
    let element = Id::new(7, 1).expect(&rt, "an identifier");
    let last = Id::new(Id::MAX_COUNTER, 65535).expect(&rt, "an identifier");
    let put = Vec::from_slice(alloc, &['é', '\n', '€', '\u{1}']).expect(&rt, "out of memory");
    let nothing = Vec::new(alloc);
    let buffer = BufferStatus {
        name: "a\"b\\c",
        changed: true,
        waiting: 4,
        unsaved: 3,
    };
    let changes = [
        Splice { lo: 0, hi: 3, put },
        Splice {
            lo: 9,
            hi: 9,
            put: nothing,
        },
    ];
    let places = [
        PlaceStatus {
            element,
            row: 0,
            column: 3,
        },
        PlaceStatus {
            element: last,
            row: 1,
            column: 0,
        },
    ];
    let refused = [
        RefusedReport {
            number: 3,
            fault: "Stale",
        },
        RefusedReport {
            number: 4,
            fault: "Far",
        },
    ];
    let windows = [
        WindowStatus {
            rows: 22,
            name: "note",
        },
        WindowStatus {
            rows: 1,
            name: "\u{1f}",
        },
    ];
    let status = Status {
        begun: true,
        buffer,
        changes: Some(&changes),
        cursor: Some(Position { row: 0, column: 4 }),
        keys: 12,
        live: Some(buffer),
        loaded: true,
        message: "Wrote é",
        mode: Asking::Search,
        more: true,
        operations: 2,
        places: &places,
        point: PointStatus {
            line: 0,
            column: 4,
            element,
        },
        prompt: Some(PromptStatus {
            label: "I-search: ",
            answer: &['a', 'b', '\t'],
        }),
        refused: &refused,
        reports: 5,
        rows: 24,
        saved: Saved::Memory,
        windows: &windows,
    };
    let line = status_line(alloc, &status).expect(&rt, "out of memory");
    assert_eq!(rt; line.as_str(), FULL);
}
