//! Key sequences, byte by byte.
use crate::argument::Argument;
use crate::step::Step;
use crate::utf8::Continuation;

/// What has come of a key sequence, its argument part aside.
#[derive(Clone, Copy)]
pub(crate) enum Sequence {
    /// Nothing.
    Start,
    /// ESC.
    Escape,
    /// C-x.
    ControlX,
    /// C-q.
    Quote,
    /// The first bytes of a character.
    Character(Continuation),
}

/// What a byte makes of a key sequence.
#[derive(Drop)]
pub(crate) enum Advance {
    /// It is whole, and this is its step.
    Whole(Step),
    /// More bytes are wanted.
    On(Argument, Sequence),
    /// There is no such sequence.
    Nothing,
}
