//! Saves and exchanges that failed, and which of them stand.
ghost use Rattle.std.specs.Prelude.{◌≡◌, []};
ghost use Rattle.mg_workspace.specs.Failures as spec;

use crate::buffers::moved;
use arrayvec::ArrayVec;
use rga_lines::LineFault;
use rga_ops::Refusal;
use std::marker::Model;

/// How many failures are kept: the two of each buffer that may be open, and that of one that was
/// removed, behind which no other is ever the first.
pub const MAX_FAILURES: usize = 129;

/// What a buffer may fail in.
#[derive(Clone, Copy)]
pub enum Task {
    /// A save that was asked for.
    Save,
    /// An exchange with a peer, be that asked or awaited.
    Exchange,
}

/// Why a save or an exchange failed.
#[derive(Clone, Copy, PartialEq, Eq)]
pub enum Failure {
    /// A file or a socket failed, there was nowhere to meet a peer, or the peer ended early or named
    /// another number of operations than it sent.
    Device,
    /// That line of what a peer said is no operation.
    Line(u64, LineFault),
    /// The operation in that line was not taken.
    Refused(u64, Refusal),
    /// A growth of memory was refused.
    Memory,
}

/// A task that failed.
#[derive(Clone, Copy)]
pub struct Failed {
    /// The index of its buffer; none where that was removed.
    pub buffer: Option<usize>,
    pub task: Task,
    pub why: Failure,
}

impl Default for Failed {
    fn default() -> Failed {
        Failed {
            buffer: None,
            task: Task::Save,
            why: Failure::Memory,
        }
    }
}

/// The failures, the first one first.
type Standing = ArrayVec<Failed, MAX_FAILURES>;

/// What failed and was not done since, the first one first.
#[derive(Drop)]
pub struct Failures {
    standing: Standing,
}

impl Model for Failures {
    ghost use Rattle.std.specs.Prelude.{List};
    ghost use Rattle.mg_workspace.specs.declared.failures.Failed.{Failed};

    ghost Value = { List Failed };

    ghost view = { λ f. f.standing.items };
}

/// Whether two tasks are one.
fn is_task(one: Task, other: Task) -> bool
    ensures { result ≡ spec.is_task one other }
{
    match (one, other) {
        (Task::Save, Task::Save) | (Task::Exchange, Task::Exchange) => true,
        _ => false,
    }
}

/// Whether it is of that task in the buffer at an index.
fn is_of(failed: &Failed, buffer: usize, task: Task) -> bool
    ensures { result ≡ spec.is_of buffer task failed.now }
{
    match failed.buffer {
        Some(index) => index == buffer && is_task(failed.task, task),
        None => false,
    }
}

/// The same failure, once the buffer at an index is removed.
fn moved_failed(failed: Failed, gone: usize) -> Failed
    ensures { result ≡ spec.moved_failed gone failed }
{
    let buffer = match failed.buffer {
        Some(index) => owner(index, gone),
        None => None,
    };
    Failed { buffer, ..failed }
}

/// The index of a buffer, once one is removed; none where it was that one.
fn owner(index: usize, gone: usize) -> Option<usize>
    ensures { result ≡ spec.owner gone index }
{
    if index == gone {
        return None;
    }
    Some(moved(gone, index))
}

fn drop_task(standing: &mut Standing, buffer: usize, task: Task)
    ensures { standing.new.items ≡ spec.others buffer task standing.old.items }
{
    standing.retain(|failed| !is_of(failed, buffer, task));
}

fn move_all(standing: &mut Standing, gone: usize)
    ensures { standing.new.items ≡ spec.without_owner gone standing.old.items }
{
    for index in 0..standing.as_slice().len() {
        let was = standing.as_slice()[index];
        standing[index] = moved_failed(was, gone);
    }
}

impl Failures {
    /// None.
    pub fn new() -> Failures
        ensures { result ≡ [] }
    {
        Failures {
            standing: ArrayVec::new(),
        }
    }

    /// A task in the buffer at an index was done, or failed for that. Takes no memory.
    pub fn note(&mut self, buffer: usize, task: Task, why: Option<Failure>)
        ensures { self.new ≡ spec.noted buffer task why self.old }
    {
        drop_task(&mut self.standing, buffer, task);
        let Some(why) = why else {
            return;
        };
        if self.standing.is_full() {
            return;
        }
        self.standing.push(Failed {
            buffer: Some(buffer),
            task,
            why,
        });
    }

    /// The buffer at an index was removed. Takes no memory.
    pub fn remove(&mut self, gone: usize)
        ensures { self.new ≡ spec.without_owner gone self.old }
    {
        move_all(&mut self.standing, gone);
    }

    /// Why the first that stands failed. Takes no memory.
    pub fn first(&self) -> Option<Failure>
        ensures { result ≡ spec.first_standing self.now }
    {
        match self.standing.as_slice().first() {
            Some(failed) => Some(failed.why),
            None => None,
        }
    }
}
