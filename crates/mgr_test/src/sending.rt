//! Lines that are appended, to devices that count their writes, take a part of the bytes, or fail.
use rga_exchange::{Counted, SendFault, append_log};
use rga_lines::{LineFault, write_line};
use rga_ops::{Op, Refusal};
use std::alloc::Global;
use std::process::Abort;
use test_fixtures::{Narrow, chain};

/// So many insertions, each behind the last.
fn chained(alloc: Global, count: u64) -> Result<Vec<Op>, Refusal> {
    chain(alloc, (1, 7), (0, 0), count, '\u{e9}')
}

/// The lines of these operations, each written alone.
fn lines_of(alloc: Global, ops: &[Op]) -> Result<String, LineFault> {
    let mut text = String::new(alloc);
    for op in ops {
        push_line(alloc, &mut text, op)?;
    }
    Ok(text)
}

fn push_line(alloc: Global, text: &mut String, op: &Op) -> Result<(), LineFault> {
    text.push_str(&write_line(alloc, op)?)?;
    text.push_str("\n")?;
    Ok(())
}

/// A device that has room for so many bytes, and takes at most so many in a write.
pub(crate) fn device(alloc: Global, room: usize, most: usize, flushes: bool) -> Narrow {
    Narrow {
        taken: Vec::new(alloc),
        room,
        most,
        writes: 0,
        flushes,
    }
}

/// Whether these operations are appended as their lines, in blocks of 65536 bytes.
fn are_written_in_blocks(alloc: Global, ops: &[Op]) -> Result<bool, LineFault> {
    let text = lines_of(alloc, ops)?;
    let mut writer = Counted::new(device(alloc, 1000000, 1000000, true));
    let answer = append_log(alloc, ops, &mut writer);
    let Narrow { taken, writes, .. } = writer.into_inner();
    let blocks = text.len().div_ceil(65536);
    Ok(answer == Ok(5000) && taken.as_slice() == text.as_bytes() && writes == blocks)
}

#[test]
fn many_lines_are_written_in_few_blocks(rt: HostRuntime) {
    let ops = chained(rt.alloc(), 5000).expect(&rt, "a chain");
    assert!(rt; are_written_in_blocks(rt.alloc(), &ops) == Ok(true));
}

/// Whether lines are answered as expected, the device counts as failed where that is a fault, and it
/// took as much of the text as it had room for.
pub(crate) fn is_filled(
    writer: Counted<Narrow>,
    room: usize,
    answer: Result<u64, SendFault>,
    expected: Result<u64, SendFault>,
    text: &str,
) -> bool {
    let counted = writer.failures() == u64::from(expected.is_err());
    let taken = writer.into_inner().taken;
    answer == expected && counted && taken.len() == room && text.as_bytes().starts_with(&taken)
}

/// Whether this is answered where these operations are appended to a device.
fn fills(
    alloc: Global,
    ops: &[Op],
    device: Narrow,
    expected: Result<u64, SendFault>,
    text: &str,
) -> bool {
    let room = device.room;
    let mut writer = Counted::new(device);
    let answer = append_log(alloc, ops, &mut writer);
    is_filled(writer, room, answer, expected, text)
}

/// Whether devices with room for all lines and for fewer, that take few bytes in a write, many, or
/// none more, answer so.
fn fill(rt: &impl Abort, alloc: Global, ops: &[Op], text: &str) {
    let all = text.len();
    for (room, most, flushes, answer) in [
        (all, 7, true, Ok(3000)),
        (all, 65536, false, Err(SendFault::Write)),
        (all.saturating_sub(1), 65536, true, Err(SendFault::Write)),
        (70000, 7, true, Err(SendFault::Write)),
        (0, 1, true, Err(SendFault::Write)),
    ] {
        let device = device(alloc, room, most, flushes);
        assert!(rt; fills(alloc, ops, device, answer, text), "{room} by {most}");
    }
}

#[test]
fn devices_that_take_part_of_the_bytes_or_fail(rt: HostRuntime) {
    let ops = chained(rt.alloc(), 3000).expect(&rt, "a chain");
    let text = lines_of(rt.alloc(), &ops).expect(&rt, "its lines");
    fill(&rt, rt.alloc(), &ops, &text);
}
