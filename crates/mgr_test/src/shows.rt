//! A text that is written, and not flushed.
use crate::sending::device;
use mgr_show::{ShowFault, show_ops};
use rga_exchange::Counted;
use std::alloc::Global;

/// Two insertions.
const HI: &str = r#"{"char":"h","id":[1,1],"op":"ins","parent":[0,0]}
{"char":"i","id":[2,1],"op":"ins","parent":[1,1]}
"#;

/// Whether a device that fails at a flush takes the text, and that is answered as its fault.
fn fails(alloc: Global) -> bool {
    let mut reader = Counted::new(HI.as_bytes());
    let mut writer = Counted::new(device(alloc, 100, 2, false));
    let answer = show_ops(alloc, &mut reader, &mut writer);
    answer == Err(ShowFault::Write) && writer.into_inner().taken.len() == 2
}

#[test]
fn a_flush_that_fails_is_a_device_fault(rt: HostRuntime) {
    assert!(rt; fails(rt.alloc()));
}
