//! Lists of another replica's operations, which are taken whole or not at all.
use crate::sessions::{Session, open_session};
use mg_plain::Command;
use rga_ops::Refusal;
use rga_store::{Taker, TextStore};
use rga_tree::TreeStore;
use std::alloc::Global;
use std::process::Abort;
use test_fixtures::{are_ops_of, ops_of, prints};

/// Operations that are taken as one list, the answer, and those of them that are unsaved behind that.
const ROWS: &[(&str, &str, &str)] = &[
    ("a1.1<0.0 x3.2<1.1 x3.2<1.1", "Ok(())", "x3.2<1.1"),
    ("-2.1 a1.1<0.0 -2.1 -5.2", "Ok(())", "-2.1 -5.2"),
    ("-2.1 -5.2 x3.2<1.1", "Ok(())", ""),
    ("y4.2<3.2 -0.0", "Err(BadId)", ""),
    ("y4.2<3.2 z3.2<4.2", "Err(BadOrder)", ""),
    ("p8.2<0.0 q9.2<0.0 r10.2<0.0", "Err(Full)", ""),
];

/// Whether the operations have this answer, and those of them are unsaved behind that.
fn takes<S: TextStore>(
    s: &mut Session<S>,
    words: &str,
    answer: &str,
    noted: &str,
) -> Result<bool, Refusal> {
    let list = ops_of(s.alloc, words)?;
    s.buffer.mark_saved();
    Ok(
        prints(s.alloc, &s.buffer.apply_all(&list), answer)
            && are_ops_of(s.alloc, s.buffer.unsaved(), noted),
    )
}

fn types_two_letters<S: TextStore>(s: &mut Session<S>) -> bool {
    s.run(&Command::Insert('a')).is_ok() && s.run(&Command::Insert('b')).is_ok()
}

fn take_each<S: TextStore, R: Abort>(rt: &R, s: &mut Session<S>) {
    assert!(rt; types_two_letters(s));
    for (words, answer, noted) in ROWS {
        let taken = takes(s, words, answer, noted);
        assert!(rt; taken == Ok(true), "{words}");
    }
}

fn check<S: TextStore, R: Abort>(rt: &R, alloc: Global) {
    let mut s = open_session::<S>(alloc, 1, 6).expect(rt, "a session");
    take_each(rt, &mut s);
}

#[test]
fn new_operations_are_unsaved(rt: HostRuntime) {
    check::<TreeStore, _>(&rt, rt.alloc());
}
