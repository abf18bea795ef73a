//! What is mended of small logs.
use mgr_mend::{LeftOut, mend_log};

/// A log, what stays of it, and what is left out.
struct Case {
    name: &'static str,
    log: &'static str,
    mended: &'static str,
    refused: &'static str,
    faulty: u64,
    beaten: u64,
    torn: bool,
}

const CASES: [Case; 5] = [
    Case {
        name: "an empty log",
        log: "",
        mended: "",
        refused: "",
        faulty: 0,
        beaten: 0,
        torn: false,
    },
    Case {
        name: "a line that is no operation, and one that was cut off",
        log: "{\"id\": [1,1],\"op\":\"del\"}\nx\n\n{\"op\":\"head\",\"version\":2}\n{\"id\":[1,",
        mended: "{\"id\": [1,1],\"op\":\"del\"}\n",
        refused: "x\n\n{\"op\":\"head\",\"version\":2}\n{\"id\":[1,",
        faulty: 3,
        beaten: 0,
        torn: true,
    },
    Case {
        name: "a rest that is an operation",
        log: "x\n{\"id\":[1,1],\"op\":\"del\"}",
        mended: "{\"id\":[1,1],\"op\":\"del\"}",
        refused: "x\n",
        faulty: 1,
        beaten: 0,
        torn: false,
    },
    Case {
        name: "a run of which one insertion is beaten",
        log: "{\"id\":[1,1],\"op\":\"run\",\"parent\":[0,0],\"text\":\"abc\"}\n{\"char\":\"B\",\"id\":[2,1],\"op\":\"ins\",\"parent\":[1,1]}\n",
        mended: "{\"char\":\"a\",\"id\":[1,1],\"op\":\"ins\",\"parent\":[0,0]}\n{\"char\":\"c\",\"id\":[3,1],\"op\":\"ins\",\"parent\":[2,1]}\n{\"char\":\"B\",\"id\":[2,1],\"op\":\"ins\",\"parent\":[1,1]}\n",
        refused: "{\"id\":[1,1],\"op\":\"run\",\"parent\":[0,0],\"text\":\"abc\"}\n",
        faulty: 0,
        beaten: 1,
        torn: false,
    },
    Case {
        name: "a rest that is beaten, and an insertion that stands twice",
        log: "{\"char\":\"a\",\"id\":[1,1],\"op\":\"ins\",\"parent\":[0,0]}\n{\"char\":\"a\",\"id\":[1,1],\"op\":\"ins\",\"parent\":[0,0] }\n{\"char\":\"b\",\"id\":[1,1],\"op\":\"ins\",\"parent\":[0,0]}",
        mended: "{\"char\":\"a\",\"id\":[1,1],\"op\":\"ins\",\"parent\":[0,0]}\n{\"char\":\"a\",\"id\":[1,1],\"op\":\"ins\",\"parent\":[0,0] }\n",
        refused: "{\"char\":\"b\",\"id\":[1,1],\"op\":\"ins\",\"parent\":[0,0]}",
        faulty: 0,
        beaten: 1,
        torn: false,
    },
];

#[test]
fn small_logs_are_mended(rt: HostRuntime) {
    for case in &CASES {
        let Ok(mended) = mend_log(rt.alloc(), case.log.as_bytes()) else {
            panic!(rt; "memory");
        };
        let left_out = LeftOut {
            faulty: case.faulty,
            beaten: case.beaten,
            torn: case.torn,
            excess: 0,
        };
        assert!(rt;
            mended.log.as_slice() == case.mended.as_bytes(),
            "{}: the log",
            case.name
        );
        assert!(rt;
            mended.refused.as_slice() == case.refused.as_bytes(),
            "{}: refused",
            case.name
        );
        assert!(rt; mended.left_out == left_out, "{}: left out", case.name);
    }
}

/// Bytes that are no UTF-8 are a line that is no operation.
#[test]
fn bytes_that_are_no_text_are_left_out(rt: HostRuntime) {
    let Ok(mended) = mend_log(rt.alloc(), b"\xff\xfe\n{\"id\":[1,1],\"op\":\"del\"}\n\xff") else {
        panic!(rt; "memory");
    };
    assert!(rt;
        mended.log.as_slice() == b"{\"id\":[1,1],\"op\":\"del\"}\n".as_slice(),
        "the log"
    );
    assert!(rt;
        mended.refused.as_slice() == b"\xff\xfe\n\xff".as_slice(),
        "refused"
    );
}
