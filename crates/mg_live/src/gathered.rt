//! Text that comes in several reports.
ghost use Rattle.std.specs.Prelude.{◌≡◌, ◌⊎◌};
ghost use Rattle.mg_live.specs.Gathering as spec;
ghost use Rattle.rga_lines.specs.Memory.{LineMemory};

use mg_plain::Chars;
use rga_lines::LineFault;
use std::alloc::Global;
use std::marker::Model;

/// How many characters are held at most.
pub const MAX_HELD: usize = 4_194_304;

/// The text that came so far, where more is to come.
#[derive(Drop)]
pub(crate) struct Gathered {
    alloc: Global,
    text: Vec<char>,
    /// More came than is held: what comes up to the end of the text is refused.
    dropped: bool,
}

impl Model for Gathered {
    ghost use Rattle.mg_live.specs.Gathering as spec;

    ghost Value = { spec.Gathered };

    ghost view = { λ g. record { text = g.text.items; dropped = g.dropped } };
}

/// What became of a piece of text.
#[derive(Drop)]
pub(crate) enum Piece {
    /// It is held: more is to come.
    Held,
    /// The text is whole.
    Whole(Chars),
    /// It is not taken, and what was held is dropped: `Long` or `Memory`.
    Dropped(LineFault),
}

impl Gathered {
    /// Nothing is held. Takes no memory.
    pub(crate) fn new(alloc: Global) -> Gathered
        ensures { result ≡ spec.nothing_held }
    {
        Gathered {
            alloc,
            text: Vec::new(alloc),
            dropped: false,
        }
    }

    /// Takes a piece of a text, which more pieces follow or not.
    pub(crate) fn gather(&mut self, piece: &[char], more: bool) -> Piece
        ensures { ((self.new, result) ≡ spec.gather piece.now more self.old)
            ⊎ ((self.new, result) ≡ spec.drop_text more LineMemory) }
    {
        let held = self.text.len();
        if self.dropped || held > MAX_HELD || piece.len() > MAX_HELD - held {
            return self.drop_text(more, LineFault::Long);
        }
        match self.text.extend_from_slice(piece) {
            Ok(()) => self.pass(more),
            Err(refused) => self.drop_text(more, LineFault::from(refused)),
        }
    }

    /// The text is held if more is to come, and else it is whole.
    fn pass(&mut self, more: bool) -> Piece
        ensures { (self.new, result) ≡ spec.passed more self.old }
    {
        if more {
            return Piece::Held;
        }
        let text = std::mem::replace(&mut self.text, Vec::new(self.alloc));
        Piece::Whole(Chars::from(text))
    }

    /// What is held is dropped, and so is what comes up to the end of the text.
    fn drop_text(&mut self, more: bool, fault: LineFault) -> Piece
        ensures { (self.new, result) ≡ spec.drop_text more fault }
    {
        self.text.clear();
        self.dropped = more;
        Piece::Dropped(fault)
    }

    /// Whether a text was begun, and is not whole. Takes no memory.
    pub(crate) fn is_begun(&self) -> bool
        ensures { result ≡ spec.is_begun self.now }
    {
        self.dropped || !self.text.as_slice().is_empty()
    }
}
