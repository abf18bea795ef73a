//! Logs and exchanges, read and written: `logs bytes`, `logs read`, `logs receive`, `logs write
//! TIMES` and `logs send TIMES`.
//!
//! `bytes` reads standard input and counts its bytes, which is what reading costs at least; `read`
//! takes a log from standard input into a store, and `receive` an exchange. The number is what was
//! counted. `write` reads a log as `read` does, and writes the operations that its store lists so
//! many times to standard output, as a log; `send` sends the store so many times.
use crate::fault::Fault;
use crate::text::{named, number_at};
use rga_exchange::{Counted, MAX_CALLS, append_log, read_log, receive, send};
use rga_ops::Op;
use rga_store::{MAX_LIMIT, TextStore};
use std::alloc::Global;
use std::io::{Read, Write, writer};

/// The most bytes that are asked for at once.
const BLOCK: usize = 65536;

#[derive(Clone, Copy)]
enum Work {
    Bytes,
    Read,
    Receive,
    Write,
    Send,
}

/// The names of work.
const WORKS: [(&str, Work); 5] = [
    ("bytes", Work::Bytes),
    ("read", Work::Read),
    ("receive", Work::Receive),
    ("write", Work::Write),
    ("send", Work::Send),
];

/// What was counted, where the task writes nothing.
pub fn outcome<S: TextStore>(rt: &HostRuntime, words: &[String]) -> Result<Option<u64>, Fault> {
    let Some(work) = named(words, &WORKS) else {
        return Err(Fault::Words);
    };
    match work {
        Work::Write | Work::Send => match number_at(words, 3) {
            Some(times) => written::<S>(rt, work, times),
            None => Err(Fault::Words),
        },
        _ => counted::<S>(rt, work),
    }
}

fn counted<S: TextStore>(rt: &HostRuntime, work: Work) -> Result<Option<u64>, Fault> {
    let mut reader = Counted::new(rt.reader());
    let count = match work {
        Work::Bytes => bytes(&mut reader),
        _ => taken::<S, _>(rt.alloc(), work, &mut reader),
    };
    count.map(Some)
}

/// Writes or sends so many times, and counts nothing.
fn written<S: TextStore>(rt: &HostRuntime, work: Work, times: usize) -> Result<Option<u64>, Fault> {
    let mut reader = Counted::new(rt.reader());
    let mut writer = Counted::new(writer(rt));
    put::<S, _, _>(rt.alloc(), work, times, &mut reader, &mut writer)
}

/// How many operations an exchange has, or how many of a log differ.
fn taken<S: TextStore, R: Read>(
    alloc: Global,
    work: Work,
    reader: &mut Counted<R>,
) -> Result<u64, Fault> {
    let Ok(mut store) = S::new(alloc, MAX_LIMIT) else {
        return Err(Fault::Refused);
    };
    take(alloc, &mut store, work, reader)
}

fn take<S: TextStore, R: Read>(
    alloc: Global,
    store: &mut S,
    work: Work,
    reader: &mut Counted<R>,
) -> Result<u64, Fault> {
    if let Work::Receive = work {
        return receive(alloc, store, reader).ok().ok_or(Fault::NotRead);
    }
    match read_log(alloc, store, reader) {
        Ok(_) => Ok(store.known() as u64),
        Err(_) => Err(Fault::NotRead),
    }
}

/// How many bytes there are to read.
fn bytes<R: Read>(reader: &mut Counted<R>) -> Result<u64, Fault> {
    let mut block = [0u8; BLOCK];
    let mut total = 0u64;
    for _ in 0..MAX_CALLS {
        match reader.read(&mut block) {
            Ok(0) => break,
            Ok(count) => total = total.saturating_add(count as u64),
            Err(_) => return Err(Fault::Read),
        }
    }
    Ok(total)
}

/// Writes or sends the store of a log so many times.
fn put<S: TextStore, R: Read, W: Write>(
    alloc: Global,
    work: Work,
    times: usize,
    reader: &mut Counted<R>,
    writer: &mut Counted<W>,
) -> Result<Option<u64>, Fault> {
    let Ok(mut store) = S::new(alloc, MAX_LIMIT) else {
        return Err(Fault::Refused);
    };
    if read_log(alloc, &mut store, reader).is_err() {
        return Err(Fault::NotRead);
    }
    put_again(alloc, &store, work, times, writer)
}

fn put_again<S: TextStore, W: Write>(
    alloc: Global,
    store: &S,
    work: Work,
    times: usize,
    writer: &mut Counted<W>,
) -> Result<Option<u64>, Fault> {
    if let Work::Send = work {
        return send_again(alloc, store, times, writer);
    }
    match store.ops() {
        Ok(ops) => write_again(alloc, &ops, times, writer),
        Err(_) => Err(Fault::Refused),
    }
}

/// Writes the operations so many times.
fn write_again<W: Write>(
    alloc: Global,
    ops: &[Op],
    times: usize,
    writer: &mut Counted<W>,
) -> Result<Option<u64>, Fault> {
    for _ in 0..times {
        if append_log(alloc, ops, writer).is_err() {
            return Err(Fault::NotWritten);
        }
    }
    Ok(None)
}

/// Sends the store so many times.
fn send_again<S: TextStore, W: Write>(
    alloc: Global,
    store: &S,
    times: usize,
    writer: &mut Counted<W>,
) -> Result<Option<u64>, Fault> {
    for _ in 0..times {
        if send(alloc, store, writer).is_err() {
            return Err(Fault::NotWritten);
        }
    }
    Ok(None)
}
