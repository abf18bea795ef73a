//! Buffers that visit files, with what is still to be written of them.
ghost use Rattle.std.specs.Prelude.{◌≡◌, [], true, false};
ghost use Rattle.mg_buffer.specs.OpenState as spec;
ghost use Rattle.mg_buffer.specs.OpenState.{has_made, is_changed, is_touched, with_brief, with_runs};

use crate::buffer::Buffer;
use rga_ops::Op;
use rga_store::TextStore;
use std::marker::Model;

/// A buffer with what is still to be written of it, beside its unsaved operations.
#[derive(Drop)]
pub struct VisitedBuffer<S: TextStore> {
    pub buffer: Buffer<S>,
    /// The log may not end in a newline: it was loaded so, or writing it failed, and it was not
    /// written whole since. The next writing of it is then a whole one.
    whole: bool,
    /// The log has operations that were written since the text was put.
    text_waits: bool,
    /// Whether a save of many operations appends them in runs.
    runs: bool,
    /// Whether an exchange tells first what is known, and sends only what the peer lacks.
    brief: bool,
}

impl<S: TextStore> Model for VisitedBuffer<S> {
    ghost use Rattle.mg_buffer.specs.OpenState.{OpenState, open_state_code};

    ghost Value = { OpenState };

    ghost coded = { open_state_code };

    ghost view = { λ o. record {
      buffer = o.buffer;
      whole = o.whole;
      text_waits = o.text_waits;
      runs = o.runs;
      brief = o.brief;
    } };
}

impl<S: TextStore> VisitedBuffer<S> {
    /// A buffer as it was loaded, and whether the next writing of its log is a whole one. A save of
    /// it appends a line an operation, and an exchange sends all that it holds. Takes no memory.
    pub fn new(buffer: Buffer<S>, whole: bool) -> VisitedBuffer<S>
        ensures { result ≡ record {
          buffer = buffer;
          whole = whole;
          text_waits = false;
          runs = false;
          brief = false;
        } }
    {
        VisitedBuffer {
            buffer,
            whole,
            text_waits: false,
            runs: false,
            brief: false,
        }
    }

    /// Whether a save that appends many operations puts those in a row that are a run in one line.
    /// Takes no memory.
    pub fn append_runs(&mut self, runs: bool)
        ensures { self.new ≡ with_runs runs self.old }
    {
        self.runs = runs;
    }

    /// Whether `append_runs` asked for that. Takes no memory.
    pub fn appends_runs(&self) -> bool
        ensures { result ≡ self.now.runs }
    {
        self.runs
    }

    /// Whether an exchange tells first what is known, and sends only what the peer lacks. Takes no
    /// memory.
    pub fn exchange_briefly(&mut self, brief: bool)
        ensures { self.new ≡ with_brief brief self.old }
    {
        self.brief = brief;
    }

    /// Whether `exchange_briefly` asked for that. Takes no memory.
    pub fn is_brief(&self) -> bool
        ensures { result ≡ self.now.brief }
    {
        self.brief
    }

    /// Whether there is something to save: operations are unsaved, or the text was not put since
    /// the last of them were written. Takes no memory.
    pub fn is_changed(&self) -> bool
        ensures { result ≡ is_changed self.now }
    {
        !self.buffer.unsaved().is_empty() || self.text_waits
    }

    /// Whether a command or an undo made something in it since it was loaded. Takes no memory.
    pub fn has_made(&self) -> bool
        ensures { result ≡ has_made self.now }
    {
        self.buffer.history.count() > 0
    }

    /// Whether something was made in it since it was loaded, or it is no longer as it was loaded: its
    /// log is to be written whole, its text waits, or what is unsaved does not begin with the first
    /// character of a text that was loaded without a log. Takes no memory.
    pub fn is_touched(&self) -> bool
        ensures { result ≡ is_touched self.now }
    {
        self.has_made()
            || self.whole
            || self.text_waits
            || !begin_as_loaded(self.buffer.doc.replica(), self.buffer.unsaved())
    }

    /// Whether the next writing of the log is a whole one. Takes no memory.
    pub fn writes_whole(&self) -> bool
        ensures { result ≡ self.now.whole }
    {
        self.whole
    }

    /// Notes that the log was written: it has all operations, and the text waits. Takes no memory.
    pub fn mark_logged(&mut self)
        ensures { self.new ≡ record self.old {
          buffer = record self.old.buffer { unsaved = [] };
          whole = false;
          text_waits = true;
        } }
    {
        self.buffer.mark_saved();
        self.whole = false;
        self.text_waits = true;
    }

    /// Notes that writing the log failed: the next writing of it is a whole one. Takes no memory.
    pub fn mark_unlogged(&mut self)
        ensures { self.new ≡ record self.old { whole = true } }
    {
        self.whole = true;
    }

    /// Notes that the text was put: it waits no more. Takes no memory.
    pub fn mark_put(&mut self)
        ensures { self.new ≡ record self.old { text_waits = false } }
    {
        self.text_waits = false;
    }
}

/// Whether operations begin with the first character of a text that the replica loaded without a log.
fn begin_as_loaded(replica: u16, ops: &[Op]) -> bool
    ensures { result ≡ spec.begin_as_loaded replica ops.now }
{
    match ops.first() {
        Some(Op::Insert { id, .. }) => id.counter() == 1 && id.replica() == replica,
        Some(Op::Delete { .. }) => false,
        None => false,
    }
}
