//! Commands on a buffer: `buffers WORK SIZE TIMES`.
//!
//! A buffer of SIZE characters with point in the middle is made, and the work is done so many
//! times: `insert` a character; `motion` by one and back; `kill-line`, and yank it back;
//! `undo-insert` and `undo-line`, a character put in or a line killed and that undone; each command
//! with the view behind it. `kill` makes the buffer so many times, with point in front, and kills
//! sixty lines in each; `make` only makes it. `kill-all` marks the whole text and kills it,
//! `undo-all` undoes that too; `take` has the buffer take an operation of another replica, and
//! `store` its store alone. The number is how many identifiers are known in the end.
use crate::command_kind::{CommandKind, command_of};
use crate::fault::Fault;
use crate::text::{Task, document, paragraph, task_of};
use mg_buffer::{Buffer, BufferFault, Memo};
use mg_plain::{Chars, Command};
use rga_doc::Doc;
use rga_ops::{Id, Op, Refusal};
use rga_store::{Taker, TextStore};
use std::alloc::{AllocError, Global};

/// The column to which nothing is filled here.
const FILL: u16 = 70;

/// So many lines are killed in each buffer.
const KILLS: usize = 60;

#[derive(Clone, Copy)]
enum Step {
    Run(CommandKind),
    /// The text is listed, and the view looked at.
    Look,
    Undo,
    Idle,
}

/// What is done again and again.
#[derive(Clone, Copy)]
enum Work {
    Insert,
    Motion,
    KillLine,
    Kill,
    Make,
    UndoLine,
    UndoInsert,
    KillAll,
    UndoAll,
    Take,
    Store,
}

/// The names of work.
const WORKS: [(&str, Work); 11] = [
    ("insert", Work::Insert),
    ("motion", Work::Motion),
    ("kill-line", Work::KillLine),
    ("kill", Work::Kill),
    ("make", Work::Make),
    ("undo-line", Work::UndoLine),
    ("undo-insert", Work::UndoInsert),
    ("kill-all", Work::KillAll),
    ("undo-all", Work::UndoAll),
    ("take", Work::Take),
    ("store", Work::Store),
];

/// What is done once; of what is done otherwise, nothing.
fn steps_of(work: Work) -> &'static [Step] {
    match work {
        Work::Insert => INSERT,
        Work::Motion => MOTION,
        Work::KillLine => KILL_LINE,
        Work::Kill | Work::Make => KILL,
        Work::UndoLine => UNDO_LINE,
        Work::UndoInsert => UNDO_INSERT,
        Work::KillAll => KILL_ALL,
        Work::UndoAll => UNDO_ALL,
        Work::Take | Work::Store => &[],
    }
}

const INSERT: &[Step] = &[Step::Run(CommandKind::Insert), Step::Look];

const MOTION: &[Step] = &[
    Step::Run(CommandKind::ForwardChar),
    Step::Look,
    Step::Run(CommandKind::BackwardChar),
    Step::Look,
];

const KILL_LINE: &[Step] = &[
    Step::Run(CommandKind::KillLine),
    Step::Look,
    Step::Run(CommandKind::Yank),
    Step::Look,
    Step::Run(CommandKind::BeginningOfLine),
    Step::Look,
];

/// A line killed in front, and the motion to the next.
const KILL: &[Step] = &[
    Step::Run(CommandKind::KillLine),
    Step::Look,
    Step::Run(CommandKind::NextLine),
    Step::Look,
];

const UNDO_LINE: &[Step] = &[
    Step::Run(CommandKind::KillLine),
    Step::Look,
    Step::Undo,
    Step::Look,
    Step::Idle,
];

const UNDO_INSERT: &[Step] = &[
    Step::Run(CommandKind::Insert),
    Step::Look,
    Step::Undo,
    Step::Look,
    Step::Idle,
];

const KILL_ALL: &[Step] = &[
    Step::Run(CommandKind::MarkWholeBuffer),
    Step::Run(CommandKind::KillRegion),
];

const UNDO_ALL: &[Step] = &[
    Step::Run(CommandKind::MarkWholeBuffer),
    Step::Run(CommandKind::KillRegion),
    Step::Undo,
];

pub fn outcome<S: TextStore>(alloc: Global, words: &[String]) -> Result<usize, Fault> {
    let Some(task) = task_of(words, &WORKS) else {
        return Err(Fault::Words);
    };
    done_all::<S>(alloc, &task).ok().ok_or(Fault::Refused)
}

fn done_all<S: TextStore>(alloc: Global, task: &Task<Work>) -> Result<usize, BufferFault> {
    match task.work {
        Work::Kill => made_again::<S>(alloc, task, KILLS),
        Work::Make => made_again::<S>(alloc, task, 0),
        Work::Store => taken_again::<S>(alloc, task),
        _ => done::<S>(alloc, task, task.size / 2),
    }
}

/// Kills so many lines in so many buffers.
fn made_again<S: TextStore>(
    alloc: Global,
    task: &Task<Work>,
    kills: usize,
) -> Result<usize, BufferFault> {
    let mut known = 0;
    for _ in 0..task.times {
        let times = kills;
        known = done::<S>(alloc, &Task { times, ..*task }, 0)?;
    }
    Ok(known)
}

/// A buffer of so many characters.
fn buffer_of<S: TextStore>(alloc: Global, size: usize) -> Result<Buffer<S>, BufferFault> {
    let doc = document_of(alloc, size)?;
    Ok(Buffer::new(alloc, doc, String::new(alloc), Vec::new(alloc)))
}

/// A document of so many characters.
fn document_of<S: TextStore>(alloc: Global, size: usize) -> Result<Doc<S>, Refusal> {
    document(alloc, &paragraph(alloc, size)?)
}

/// Has a store of so many characters take so many insertions.
fn taken_again<S: TextStore>(alloc: Global, task: &Task<Work>) -> Result<usize, BufferFault> {
    let mut store = store_of::<S>(alloc, task.size)?;
    take(&mut store, task.times)?;
    Ok(store.known())
}

fn store_of<S: TextStore>(alloc: Global, size: usize) -> Result<S, Refusal> {
    let doc = document_of::<S>(alloc, size)?;
    Ok(doc.store().copy()?)
}

/// Makes a buffer, and does the work in it with point at a place.
fn done<S: TextStore>(
    alloc: Global,
    task: &Task<Work>,
    start: usize,
) -> Result<usize, BufferFault> {
    let mut buffer = buffer_of::<S>(alloc, task.size)?;
    do_again(alloc, &mut buffer, task, start)
}

/// Does the work in a buffer again and again, from point at a place on.
fn do_again<S: TextStore>(
    alloc: Global,
    buffer: &mut Buffer<S>,
    task: &Task<Work>,
    start: usize,
) -> Result<usize, BufferFault> {
    let mut memo = Memo::new(alloc);
    go_to(alloc, buffer, &mut memo, start)?;
    do_work(alloc, buffer, &mut memo, task)?;
    Ok(buffer.store().known())
}

fn do_work<S: TextStore>(
    alloc: Global,
    buffer: &mut Buffer<S>,
    memo: &mut Memo,
    task: &Task<Work>,
) -> Result<(), BufferFault> {
    if let Work::Take = task.work {
        return Ok(take(buffer, task.times)?);
    }
    let steps = steps_of(task.work);
    for _ in 0..task.times {
        do_each(alloc, buffer, memo, steps)?;
    }
    Ok(())
}

/// Point goes to a place: there an empty pattern is found.
fn go_to<S: TextStore>(
    alloc: Global,
    buffer: &mut Buffer<S>,
    memo: &mut Memo,
    start: usize,
) -> Result<(), BufferFault> {
    let pattern = Chars::new(alloc);
    buffer.run(&Command::SearchForward { pattern, start }, 1, memo, FILL)
}

fn do_each<S: TextStore>(
    alloc: Global,
    buffer: &mut Buffer<S>,
    memo: &mut Memo,
    steps: &[Step],
) -> Result<(), BufferFault> {
    buffer.list();
    for step in steps {
        go(alloc, buffer, memo, *step)?;
    }
    Ok(())
}

fn go<S: TextStore>(
    alloc: Global,
    buffer: &mut Buffer<S>,
    memo: &mut Memo,
    step: Step,
) -> Result<(), BufferFault> {
    match step {
        Step::Run(kind) => run(alloc, buffer, memo, kind),
        Step::Undo => buffer.undo(memo),
        Step::Look => look(buffer),
        Step::Idle => {
            buffer.idle(memo);
            Ok(())
        }
    }
}

fn run<S: TextStore>(
    alloc: Global,
    buffer: &mut Buffer<S>,
    memo: &mut Memo,
    kind: CommandKind,
) -> Result<(), BufferFault> {
    match command_of(alloc, kind) {
        Ok(command) => buffer.run(&command, 1, memo, FILL),
        Err(_) => Err(BufferFault::Store(Refusal::from(AllocError))),
    }
}

fn look<S: TextStore>(buffer: &mut Buffer<S>) -> Result<(), BufferFault> {
    buffer.list();
    let _sight = buffer.sight()?;
    Ok(())
}

/// Has a taker take so many insertions of another replica, each behind the one before.
fn take<T: Taker>(taker: &mut T, times: usize) -> Result<(), Refusal> {
    let mut parent = Id::ROOT;
    for k in 0..times {
        let id = Id::new((k as u64).saturating_add(2_000_000), 2)?;
        let _taken = taker.apply(Op::Insert {
            id,
            parent,
            ch: 'c',
        })?;
        parent = id;
    }
    Ok(())
}
