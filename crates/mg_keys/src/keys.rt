//! Keys: bytes that become steps.
ghost use Rattle.std.specs.Prelude.{◌≡◌, ◌↔◌, ◌∷◌, [], ◌++◌, List, ℕ, false};
ghost use Rattle.mg_keys.specs.Advance.{Advances};
ghost use Rattle.mg_keys.specs.Begun as spec;
ghost use Rattle.mg_keys.specs.Begun.{HasBegun, Answers};
ghost use Rattle.mg_keys.specs.Meaning.{meaning};

use crate::argument::Argument;
use crate::plain::plain_advance;
use crate::prompts::{prompt_advance, query_advance, search_advance, text_advance};
use crate::sequence::{Advance, Sequence};
use crate::step::{Mode, Step};
use std::marker::Model;

/// The bytes of a key sequence that has begun, as what further bytes mean behind them.
#[derive(Clone, Copy)]
pub struct Keys {
    mode: Mode,
    argument: Argument,
    sequence: Sequence,
}

impl Model for Keys {
    ghost use Rattle.mg_keys.specs.Begun.{KeyState};

    ghost Value = { KeyState };

    ghost view = { λ k. record { mode = k.mode; argument = k.argument; sequence = k.sequence } };

    ghost inverse = { λ k. record { mode = k.mode; argument = k.argument; sequence = k.sequence } };
}

impl Keys {
    /// Keys that are commands; no sequence has begun.
    pub fn new() -> Keys
        ensures fresh { result ≡ spec.fresh Mode.Plain }
    {
        fresh(Mode::Plain)
    }

    /// Whether some bytes of a key sequence were read, and it is not whole yet. Takes no memory.
    pub fn has_begun(&self) -> bool
        ensures { (result ≡ false) ↔ HasBegun self.now [] }
    {
        wait(self.mode, self.argument, self.sequence)
    }

    /// The next byte is read by this mode. What had begun of a sequence is forgotten.
    pub fn enter(&mut self, mode: Mode)
        ensures fresh { self.new ≡ spec.fresh mode }
        ensures begun { HasBegun self.new [] }
    {
        *self = fresh(mode);
    }

    /// What a byte leads to, behind the bytes since the last whole sequence: the step of the
    /// sequence that they are, `Pending` where they begin one, and `Unbound` where they are none. A
    /// whole sequence, and one that is none, is forgotten. Takes no memory.
    pub fn feed(&mut self, byte: u8) -> Step
        ensures exact { (bytes : List ℕ) → HasBegun self.old bytes →
            let all = bytes ++ byte ∷ [] in
            Answers (meaning self.old.mode all) all result self.new }
        ensures mode { self.new.mode ≡ self.old.mode }
    {
        match advance(self, byte) {
            Advance::Whole(step) => {
                self.enter(self.mode);
                step
            }
            Advance::On(argument, sequence) => {
                self.argument = argument;
                self.sequence = sequence;
                Step::Pending
            }
            Advance::Nothing => {
                self.enter(self.mode);
                Step::Unbound
            }
        }
    }
}

/// Whether more bytes are wanted behind these.
fn wait(mode: Mode, argument: Argument, sequence: Sequence) -> bool
    ensures { result ≡ spec.waits mode argument sequence }
{
    match mode {
        Mode::Plain => argument != Argument::Absent || !matches!(sequence, Sequence::Start),
        Mode::Prompt | Mode::Search => matches!(sequence, Sequence::Character(_)),
        Mode::Query => false,
    }
}

/// Keys of a mode, behind a whole sequence.
fn fresh(mode: Mode) -> Keys
    ensures fresh { result ≡ spec.fresh mode }
    ensures begun { HasBegun result [] }
{
    Keys {
        mode,
        argument: Argument::Absent,
        sequence: Sequence::Start,
    }
}

/// What a byte makes of the keys.
fn advance(keys: &Keys, byte: u8) -> Advance
    ensures { Advances keys.now byte result }
{
    match keys.mode {
        Mode::Plain => plain_advance(keys.argument, keys.sequence, byte),
        Mode::Prompt => match keys.sequence {
            Sequence::Character(begun) => text_advance(begun, byte),
            _ => prompt_advance(byte),
        },
        Mode::Search => match keys.sequence {
            Sequence::Character(begun) => text_advance(begun, byte),
            _ => search_advance(byte),
        },
        Mode::Query => query_advance(byte),
    }
}
