//! Keys, and reports among them.
ghost use Rattle.std.specs.Prelude.{◌≡◌};
ghost use Rattle.mg_events.specs.Reading as spec;
ghost use Rattle.mg_events.specs.declared.reader.Phase.TheVariants.{Report};

use rga_lines::{LineFault, MAX_LINE};
use std::alloc::Global;
use std::marker::Model;

/// The byte that begins a report. No text in UTF-8 has it.
pub const REPORT: u8 = 255;

const NEWLINE: u8 = b'\n';

/// What is begun.
#[derive(Clone, Copy)]
enum Phase {
    /// Nothing: the next byte is a key, or begins a report.
    Keys,
    /// A report, whose line is held.
    Report,
    /// A report that will be refused. Its rest is dropped.
    Dropping(LineFault),
}

/// What a byte leads to.
#[derive(Clone, Copy, Debug, PartialEq, Eq)]
pub enum Event {
    /// A key.
    Key(u8),
    /// A whole report. `Reader::line` lends its line.
    Line,
    /// A report that is refused: `Long`, or `Memory`.
    Refused(LineFault),
    /// Nothing yet: a report is begun.
    Nothing,
}

/// Tells keys and reports apart, byte by byte.
#[derive(Drop)]
pub struct Reader {
    phase: Phase,
    /// The line as far as it has come, or of the last report that was whole.
    line: Vec<u8>,
}

impl Model for Reader {
    ghost use Rattle.mg_events.specs.Reading.{Reading};

    ghost Value = { Reading };

    ghost view = { λ r. record { phase = r.phase; line = r.line.items } };
}

impl Reader {
    /// A reader that has read nothing. Takes no memory.
    pub fn new(alloc: Global) -> Reader
        ensures { result ≡ spec.fresh }
    {
        Reader {
            phase: Phase::Keys,
            line: Vec::new(alloc),
        }
    }

    /// Takes a byte, and answers what it leads to. If memory is refused for a byte of a report, the
    /// rest of this report is dropped, and it is refused at its newline: `Memory`. A report of more
    /// than `MAX_LINE` bytes is dropped and refused likewise: `Long`. A key takes no memory.
    pub fn read(&mut self, byte: u8) -> Event
        ensures event { result ≡ (spec.step self.old byte).event }
        ensures left { spec.Leaves self.old byte self.new }
    {
        match self.phase {
            Phase::Keys if byte != REPORT => Event::Key(byte),
            Phase::Keys => {
                self.phase = Phase::Report;
                self.line.clear();
                Event::Nothing
            }
            Phase::Report => self.read_more(byte),
            Phase::Dropping(_) if byte != NEWLINE => Event::Nothing,
            Phase::Dropping(fault) => {
                self.phase = Phase::Keys;
                Event::Refused(fault)
            }
        }
    }

    /// The line of the last report that was whole, without its newline, until the next one begins.
    /// While a report is begun, what came of its line.
    pub fn line(&self) -> &[u8]
        ensures { result.now ≡ self.now.line }
    {
        self.line.as_slice()
    }

    /// Whether a report is begun.
    pub fn is_within(&self) -> bool
        ensures { result ≡ spec.is_in_report self.now.phase }
    {
        match self.phase {
            Phase::Keys => false,
            Phase::Report | Phase::Dropping(_) => true,
        }
    }

    /// A byte of a report's line, or its newline.
    fn read_more(&mut self, byte: u8) -> Event
        requires { self.old.phase ≡ Report }
        ensures event { result ≡ (spec.line_step self.old byte).event }
        ensures left { spec.Leaves self.old byte self.new }
    {
        if byte == NEWLINE {
            self.phase = Phase::Keys;
            return Event::Line;
        }
        if self.line.len() >= MAX_LINE {
            self.drop_rest(LineFault::Long);
            return Event::Nothing;
        }
        if let Err(failed) = self.line.push(byte) {
            self.drop_rest(LineFault::from(failed));
        }
        Event::Nothing
    }

    /// Drops what came of a report, and goes on to do so.
    fn drop_rest(&mut self, fault: LineFault)
        ensures { self.new ≡ spec.dropping fault }
    {
        self.phase = Phase::Dropping(fault);
        self.line.clear();
    }
}
