//! Frames that are not flushed.
use crate::sending::device;
use mg_screen::{Settings, Values};
use mg_session::{SessionFault, run_keys};
use rga_exchange::Counted;
use rga_tree::TreeStore;
use std::alloc::{AllocError, Global};
use test_fixtures::Narrow;
use test_ports::MemoryPort;

/// Settings of a screen of four rows and forty columns.
fn settings(alloc: Global, trace: bool) -> Result<Option<Settings>, AllocError> {
    Ok(Settings::new(Values {
        name: String::from_str(alloc, "notes")?,
        replica: 1,
        rows: 4,
        columns: 40,
        fill: 70,
        port: None,
        trace,
        live: false,
        changes: false,
        runs: false,
        brief: false,
        strict: false,
        limit: 1000,
    }))
}

/// Whether a session of these settings ends where its screen fails at a flush, and the screen then
/// took so many bytes.
fn ends(alloc: Global, settings: &Settings, taken: usize) -> bool {
    let mut port = MemoryPort::new(alloc);
    let mut keys = Counted::new("abc".as_bytes());
    let mut screen = Counted::new(device(alloc, 1000, 65536, false));
    let answer = run_keys::<TreeStore, &[u8], Narrow, MemoryPort>(
        alloc,
        &mut keys,
        &mut screen,
        &mut port,
        settings,
    );
    answer == Err(SessionFault::Screen) && screen.into_inner().taken.len() == taken
}

/// Whether a session ends so, behind its first frame.
fn ends_with(alloc: Global, trace: bool, taken: usize) -> bool {
    match settings(alloc, trace) {
        Ok(Some(settings)) => ends(alloc, &settings, taken),
        _ => false,
    }
}

#[test]
fn each_frame_is_flushed(rt: HostRuntime) {
    // A frame before the first key has 44 bytes, and each character adds one: the last frame, and
    // the first of those that are traced.
    for (trace, taken) in [(false, 47), (true, 44)] {
        assert!(rt; ends_with(rt.alloc(), trace, taken), "{trace}");
    }
}
